//! Expansions and forms of commands that nothing specifies, and what stands beside them.

pub const ROWS: [(&[u8], &[u8]); 53] = [
    // a default of a list
    (
        br#"{"script":"show \"${@-a}\"","table":[{"name":"show","answers":[{}]}]}"#,
        br#"{"calls":[],"end":"unspecified","err":"","files":null,"out":"","status":null,"turns":0}
"#,
    ),
    // an alternate of a list
    (
        br#"{"script":"show ${*:+a}","args":["script","b"],"table":[{"name":"show","answers":[{}]}]}"#,
        br#"{"calls":[],"end":"unspecified","err":"","files":null,"out":"","status":null,"turns":0}
"#,
    ),
    // an assignment to a positional parameter
    (
        br#"{"script":"show \"${1=a}\"","table":[{"name":"show","answers":[{}]}]}"#,
        br#"{"calls":[],"end":"unspecified","err":"","files":null,"out":"","status":null,"turns":0}
"#,
    ),
    // a default of a positional parameter
    (
        br#"{"script":"show \"${1-a}\" \"${1:+b}\"","table":[{"name":"show","answers":[{}]}]}"#,
        br#"{"calls":[{"argv":["show","a",""],"env":{},"input":null}],"end":"ended","err":"","files":{},"out":"","status":0,"turns":0}
"#,
    ),
    // two lists in one word
    (
        br#"{"script":"show \"$@$@\"","args":["script","a"],"table":[{"name":"show","answers":[{}]}]}"#,
        br#"{"calls":[],"end":"unspecified","err":"","files":null,"out":"","status":null,"turns":0}
"#,
    ),
    // a list beside written empty quotes
    (
        br#"{"script":"show \"$@\"\"\"","args":["script","a"],"table":[{"name":"show","answers":[{}]}]}"#,
        br#"{"calls":[],"end":"unspecified","err":"","files":null,"out":"","status":null,"turns":0}
"#,
    ),
    // two lists in two words
    (
        br#"{"script":"show \"$@\" \"$@\"","args":["script","a"],"table":[{"name":"show","answers":[{}]}]}"#,
        br#"{"calls":[{"argv":["show","a","a"],"env":{},"input":null}],"end":"ended","err":"","files":{},"out":"","status":0,"turns":0}
"#,
    ),
    // a list in an assignment
    (
        br#"{"script":"x=\"$@\"","args":["script","a"]}"#,
        br#"{"calls":[],"end":"unspecified","err":"","files":null,"out":"","status":null,"turns":0}
"#,
    ),
    // an unquoted list in an assignment
    (
        br#"{"script":"x=$*","args":["script","a"]}"#,
        br#"{"calls":[],"end":"unspecified","err":"","files":null,"out":"","status":null,"turns":0}
"#,
    ),
    // a list as the subject of a `case`
    (
        br#"{"script":"case \"$@\" in a) ;; esac","args":["script","a"]}"#,
        br#"{"calls":[],"end":"unspecified","err":"","files":null,"out":"","status":null,"turns":0}
"#,
    ),
    // a list in a here-document
    (
        br#"{"script":"show <<E\n$*\nE\n","args":["script","a"],"table":[{"name":"show","answers":[{}]}]}"#,
        br#"{"calls":[],"end":"unspecified","err":"","files":null,"out":"","status":null,"turns":0}
"#,
    ),
    // one quoted text of all parameters
    (
        br#"{"script":"x=\"$*\"; case \"$*\" in \"a b\") show \"$x\" ;; esac","args":["script","a","b"],"table":[{"name":"show","answers":[{}]}]}"#,
        br#"{"calls":[{"argv":["show","a b"],"env":{},"input":null}],"end":"ended","err":"","files":{},"out":"","status":0,"turns":0}
"#,
    ),
    // a suffix of a list
    (
        br#"{"script":"show \"${@%a}\"","args":["script","a"],"table":[{"name":"show","answers":[{}]}]}"#,
        br#"{"calls":[],"end":"unspecified","err":"","files":null,"out":"","status":null,"turns":0}
"#,
    ),
    // a prefix of the number of parameters
    (
        br#"{"script":"show \"${##1}\"","table":[{"name":"show","answers":[{}]}]}"#,
        br#"{"calls":[],"end":"unspecified","err":"","files":null,"out":"","status":null,"turns":0}
"#,
    ),
    // the length of a list
    (
        br#"{"script":"show \"${#@}\"","table":[{"name":"show","answers":[{}]}]}"#,
        br#"{"calls":[],"end":"unspecified","err":"","files":null,"out":"","status":null,"turns":0}
"#,
    ),
    // the length of the other list
    (
        br#"{"script":"show ${#*}","table":[{"name":"show","answers":[{}]}]}"#,
        br#"{"calls":[],"end":"unspecified","err":"","files":null,"out":"","status":null,"turns":0}
"#,
    ),
    // the number of parameters, and the length of one
    (
        br#"{"script":"show \"${#}\" \"${#1}\" \"${1%a}\"","args":["script","ba"],"table":[{"name":"show","answers":[{}]}]}"#,
        br#"{"calls":[{"argv":["show","1","2","b"],"env":{},"input":null}],"end":"ended","err":"","files":{},"out":"","status":0,"turns":0}
"#,
    ),
    // `set` without `--`
    (
        br#"{"script":"set a b"}"#,
        br#"{"calls":[],"end":"unspecified","err":"","files":null,"out":"","status":null,"turns":0}
"#,
    ),
    // options
    (
        br#"{"script":"set -e"}"#,
        br#"{"calls":[],"end":"unspecified","err":"","files":null,"out":"","status":null,"turns":0}
"#,
    ),
    // `exit` with two words
    (
        br#"{"script":"exit 1 2"}"#,
        br#"{"calls":[],"end":"unspecified","err":"","files":null,"out":"","status":null,"turns":0}
"#,
    ),
    // `exit` with two fields
    (
        br#"{"script":"x='1 2'; exit $x"}"#,
        br#"{"calls":[],"end":"unspecified","err":"","files":null,"out":"","status":null,"turns":0}
"#,
    ),
    // `unset` of functions
    (
        br#"{"script":"f() { :; }; unset -f f"}"#,
        br#"{"calls":[],"end":"unspecified","err":"","files":null,"out":"","status":null,"turns":0}
"#,
    ),
    // `unset` of a function's name
    (
        br#"{"script":"unset f; f() { :; }"}"#,
        br#"{"calls":[],"end":"unspecified","err":"","files":null,"out":"","status":null,"turns":0}
"#,
    ),
    // `unset` without names
    (
        br#"{"script":"unset"}"#,
        br#"{"calls":[],"end":"unspecified","err":"","files":null,"out":"","status":null,"turns":0}
"#,
    ),
    // `unset` of a name that no function has
    (
        br#"{"script":"f() { :; }; unset g; show $?","table":[{"name":"show","answers":[{}]}]}"#,
        br#"{"calls":[{"argv":["show","0"],"env":{},"input":null}],"end":"ended","err":"","files":{},"out":"","status":0,"turns":0}
"#,
    ),
    // `export` without names
    (
        br#"{"script":"export"}"#,
        br#"{"calls":[],"end":"unspecified","err":"","files":null,"out":"","status":null,"turns":0}
"#,
    ),
    // `export` of all
    (
        br#"{"script":"export -p"}"#,
        br#"{"calls":[],"end":"unspecified","err":"","files":null,"out":"","status":null,"turns":0}
"#,
    ),
    // `read` without names
    (
        br#"{"script":"read -r","stdin":"a\n"}"#,
        br#"{"calls":[],"end":"unspecified","err":"","files":null,"out":"","status":null,"turns":0}
"#,
    ),
    // `read` with another option
    (
        br#"{"script":"read -p x y","stdin":"a\n"}"#,
        br#"{"calls":[],"end":"unspecified","err":"","files":null,"out":"","status":null,"turns":0}
"#,
    ),
    // `printf` without a format
    (
        br#"{"script":"printf"}"#,
        br#"{"calls":[],"end":"unspecified","err":"","files":null,"out":"","status":null,"turns":0}
"#,
    ),
    // a name of `read` that is computed
    (
        br#"{"script":"n=x; read -r $n","stdin":"a\n"}"#,
        br#"{"calls":[],"end":"unspecified","err":"","files":null,"out":"","status":null,"turns":0}
"#,
    ),
    // a name of `export` that is computed
    (
        br#"{"script":"n=x; export $n"}"#,
        br#"{"calls":[],"end":"unspecified","err":"","files":null,"out":"","status":null,"turns":0}
"#,
    ),
    // a name of `unset` that is computed
    (
        br#"{"script":"n=x; unset \"$n\""}"#,
        br#"{"calls":[],"end":"unspecified","err":"","files":null,"out":"","status":null,"turns":0}
"#,
    ),
    // names that are written
    (
        br#"{"script":"read -r x; export x; show; unset x","stdin":"a\n","table":[{"name":"show","answers":[{}]}]}"#,
        br#"{"calls":[{"argv":["show"],"env":{"x":"a"},"input":null}],"end":"ended","err":"","files":{},"out":"","status":0,"turns":0}
"#,
    ),
    // an unquoted expansion in a value of `export`
    (
        br#"{"script":"y=1; export x=$y"}"#,
        br#"{"calls":[],"end":"unspecified","err":"","files":null,"out":"","status":null,"turns":0}
"#,
    ),
    // a substitution there
    (
        br#"{"script":"show a; export x=$(show b)","table":[{"name":"show","answers":[{}]}]}"#,
        br#"{"calls":[{"argv":["show","a"],"env":{},"input":null}],"end":"unspecified","err":"","files":null,"out":"","status":null,"turns":0}
"#,
    ),
    // a tilde there
    (
        br#"{"script":"export x=~","env":{"HOME":"/h"}}"#,
        br#"{"calls":[],"end":"unspecified","err":"","files":null,"out":"","status":null,"turns":0}
"#,
    ),
    // a quoted expansion there
    (
        br#"{"script":"y=1; export x=\"$y\" z=\"$(printf a)\"b; show","table":[{"name":"show","answers":[{}]}]}"#,
        br#"{"calls":[{"argv":["show"],"env":{"x":"1","z":"ab"},"input":null}],"end":"ended","err":"","files":{},"out":"","status":0,"turns":0}
"#,
    ),
    // a built-in that isn't taken
    (
        br#"{"script":"show a; cd /","table":[{"name":"show","answers":[{}]}]}"#,
        br#"{"calls":[{"argv":["show","a"],"env":{},"input":null}],"end":"unspecified","err":"","files":null,"out":"","status":null,"turns":0}
"#,
    ),
    // evaluation
    (
        br#"{"script":"eval 'show a'","table":[{"name":"show","answers":[{}]}]}"#,
        br#"{"calls":[],"end":"unspecified","err":"","files":null,"out":"","status":null,"turns":0}
"#,
    ),
    // local variables
    (
        br#"{"script":"f() { local x; }; f"}"#,
        br#"{"calls":[],"end":"unspecified","err":"","files":null,"out":"","status":null,"turns":1}
"#,
    ),
    // a computed name of such a built-in
    (
        br#"{"script":"c=eval; $c 'show a'","table":[{"name":"show","answers":[{}]}]}"#,
        br#"{"calls":[],"end":"unspecified","err":"","files":null,"out":"","status":null,"turns":0}
"#,
    ),
    // before its redirections
    (
        br#"{"script":"eval a > f"}"#,
        br#"{"calls":[],"end":"unspecified","err":"","files":null,"out":"","status":null,"turns":0}
"#,
    ),
    // a reserved word of Bash
    (
        br#"{"script":"[[ a ]]"}"#,
        br#"{"calls":[],"end":"unspecified","err":"","files":null,"out":"","status":null,"turns":0}
"#,
    ),
    // a reserved word in quotes
    (
        br#"{"script":"'if' a"}"#,
        br#"{"calls":[],"end":"unspecified","err":"","files":null,"out":"","status":null,"turns":0}
"#,
    ),
    // a name that no shell knows
    (
        br#"{"script":"cdx /; show $?","table":[{"name":"show","answers":[{}]}]}"#,
        br#"{"calls":[{"argv":["cdx","/"],"env":{},"input":null},{"argv":["show","127"],"env":{},"input":null}],"end":"ended","err":"","files":{},"out":"","status":0,"turns":0}
"#,
    ),
    // a function with the name of a built-in
    (
        br#"{"script":"echo() { :; }"}"#,
        br#"{"calls":[],"end":"unspecified","err":"","files":null,"out":"","status":null,"turns":0}
"#,
    ),
    // with one that isn't taken
    (
        br#"{"script":"show a; cd() { :; }","table":[{"name":"show","answers":[{}]}]}"#,
        br#"{"calls":[{"argv":["show","a"],"env":{},"input":null}],"end":"unspecified","err":"","files":null,"out":"","status":null,"turns":0}
"#,
    ),
    // a definition of such a function that isn't run
    (
        br#"{"script":"false && echo() { :; }; echo a"}"#,
        br#"{"calls":[],"end":"ended","err":"","files":{},"out":"a\n","status":0,"turns":0}
"#,
    ),
    // what a substitution meets
    (
        br#"{"script":"x=$(show a; shift 1)","table":[{"name":"show","answers":[{}]}]}"#,
        br#"{"calls":[{"argv":["show","a"],"env":{},"input":null}],"end":"unspecified","err":"","files":null,"out":"","status":null,"turns":0}
"#,
    ),
    // what a stage meets
    (
        br#"{"script":"show a | shift 1 | show b","table":[{"name":"show","answers":[{}]}]}"#,
        br#"{"calls":[{"argv":["show","a"],"env":{},"input":null}],"end":"unspecified","err":"","files":null,"out":"","status":null,"turns":0}
"#,
    ),
    // the outputs up to there
    (
        br#"{"script":"echo a; echo b >&2; echo c > f; (exit 1) || break"}"#,
        br#"{"calls":[],"end":"unspecified","err":"b\n","files":null,"out":"a\n","status":null,"turns":0}
"#,
    ),
    // turns up to there
    (
        br#"{"script":"f() { for i in 1 2; do show $i; done; shift; }; f","table":[{"name":"show","answers":[{}]}]}"#,
        br#"{"calls":[{"argv":["show","1"],"env":{},"input":null},{"argv":["show","2"],"env":{},"input":null}],"end":"unspecified","err":"","files":null,"out":"","status":null,"turns":3}
"#,
    ),
];
