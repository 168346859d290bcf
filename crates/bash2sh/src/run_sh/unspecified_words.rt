//! Tildes, prefixes and lists that nothing specifies, redirections of special built-ins, and what stands beside them.

pub const ROWS: [(&[u8], &[u8]); 25] = [
    // a tilde without HOME
    (
        br#"{"script":"show ~","table":[{"name":"show","answers":[{}]}]}"#,
        br#"{"calls":[],"end":"unspecified","err":"","files":null,"out":"","status":null,"turns":0}
"#,
    ),
    // a quoted tilde without HOME
    (
        br#"{"script":"show \"~\" \\~ a~; x=\"~\"; show $x","table":[{"name":"show","answers":[{}]}]}"#,
        br#"{"calls":[{"argv":["show","~","~","a~"],"env":{},"input":null},{"argv":["show","~"],"env":{},"input":null}],"end":"ended","err":"","files":{},"out":"","status":0,"turns":0}
"#,
    ),
    // another home
    (
        br#"{"script":"show ~root","env":{"HOME":"/h"},"table":[{"name":"show","answers":[{}]}]}"#,
        br#"{"calls":[],"end":"unspecified","err":"","files":null,"out":"","status":null,"turns":0}
"#,
    ),
    // a tilde behind an equals sign in a word
    (
        br#"{"script":"show a=~","env":{"HOME":"/h"},"table":[{"name":"show","answers":[{}]}]}"#,
        br#"{"calls":[],"end":"unspecified","err":"","files":null,"out":"","status":null,"turns":0}
"#,
    ),
    // a tilde behind a colon in an assignment
    (
        br#"{"script":"x=/b:~/c","env":{"HOME":"/h"}}"#,
        br#"{"calls":[],"end":"unspecified","err":"","files":null,"out":"","status":null,"turns":0}
"#,
    ),
    // a tilde in a pattern
    (
        br#"{"script":"case /h in ~) ;; esac","env":{"HOME":"/h"}}"#,
        br#"{"calls":[],"end":"unspecified","err":"","files":null,"out":"","status":null,"turns":0}
"#,
    ),
    // a tilde in an assignment, and one in quotes
    (
        br#"{"script":"x=~/a; show \"$x\" a=\"~\" b:\"~\"","env":{"HOME":"/h"},"table":[{"name":"show","answers":[{}]}]}"#,
        br#"{"calls":[{"argv":["show","/h/a","a=~","b:~"],"env":{"HOME":"/h"},"input":null}],"end":"ended","err":"","files":{},"out":"","status":0,"turns":0}
"#,
    ),
    // an assignment before a function
    (
        br#"{"script":"f() { :; }; x=1 f"}"#,
        br#"{"calls":[],"end":"unspecified","err":"","files":null,"out":"","status":null,"turns":0}
"#,
    ),
    // an assignment before a special built-in
    (
        br#"{"script":"x=1 export y=2"}"#,
        br#"{"calls":[],"end":"unspecified","err":"","files":null,"out":"","status":null,"turns":0}
"#,
    ),
    // before `:` too
    (
        br#"{"script":"x=1 :"}"#,
        br#"{"calls":[],"end":"unspecified","err":"","files":null,"out":"","status":null,"turns":0}
"#,
    ),
    // an assignment before another built-in
    (
        br#"{"script":"x=1 true; x=1 printf a; x=1 gone"}"#,
        br#"{"calls":[{"argv":["gone"],"env":{"x":"1"},"input":null}],"end":"ended","err":"","files":{},"out":"a","status":127,"turns":0}
"#,
    ),
    // a value that uses a name of the same prefix
    (
        br#"{"script":"a=1 b=$a show","table":[{"name":"show","answers":[{}]}]}"#,
        br#"{"calls":[],"end":"unspecified","err":"","files":null,"out":"","status":null,"turns":0}
"#,
    ),
    // a second value with a substitution, where it would be expanded
    (
        br#"{"script":"a=1 b=$(show b) show $(show c) > f","table":[{"name":"show","answers":[{}]}]}"#,
        br#"{"calls":[{"argv":["show","c"],"env":{},"input":null}],"end":"unspecified","err":"","files":null,"out":"","status":null,"turns":0}
"#,
    ),
    // a list in a later value uses IFS
    (
        br#"{"script":"IFS=: x=\"$*\" show","table":[{"name":"show","answers":[{}]}]}"#,
        br#"{"calls":[],"end":"unspecified","err":"","files":null,"out":"","status":null,"turns":0}
"#,
    ),
    // a tilde in a later value uses HOME
    (
        br#"{"script":"HOME=/h x=~ show","table":[{"name":"show","answers":[{}]}]}"#,
        br#"{"calls":[],"end":"unspecified","err":"","files":null,"out":"","status":null,"turns":0}
"#,
    ),
    // a first value with a substitution, and names of other prefixes
    (
        br#"{"script":"c=2; a=$(show a) b=$c show","table":[{"name":"show","answers":[{}]}]}"#,
        br#"{"calls":[{"argv":["show","a"],"env":{},"input":null},{"argv":["show"],"env":{"a":"","b":"2"},"input":null}],"end":"ended","err":"","files":{},"out":"","status":0,"turns":0}
"#,
    ),
    // assignments without a command see each other
    (
        br#"{"script":"a=1 b=$a c=$(printf $b); show $c","table":[{"name":"show","answers":[{}]}]}"#,
        br#"{"calls":[{"argv":["show","1"],"env":{},"input":null}],"end":"ended","err":"","files":{},"out":"","status":0,"turns":0}
"#,
    ),
    // a name of the prefix that `read` sets
    (
        br#"{"script":"x=1 read -r x","stdin":"a\n"}"#,
        br#"{"calls":[],"end":"unspecified","err":"","files":null,"out":"","status":null,"turns":0}
"#,
    ),
    // another name of a prefix
    (
        br#"{"script":"y=1 read -r x; show $x","stdin":"a\n","table":[{"name":"show","answers":[{}]}]}"#,
        br#"{"calls":[{"argv":["show","a"],"env":{},"input":null}],"end":"ended","err":"","files":{},"out":"","status":0,"turns":0}
"#,
    ),
    // a redirection of a special built-in that fails
    (
        br#"{"script":": < gone"}"#,
        br#"{"calls":[],"end":"unspecified","err":"","files":null,"out":"","status":null,"turns":0}
"#,
    ),
    // of `export` too
    (
        br#"{"script":"show a; export x=1 > d","files":{"d/a":""},"table":[{"name":"show","answers":[{}]}]}"#,
        br#"{"calls":[{"argv":["show","a"],"env":{},"input":null}],"end":"unspecified","err":"","files":null,"out":"","status":null,"turns":0}
"#,
    ),
    // a redirection of another built-in that fails
    (
        br#"{"script":"true < gone; show $?","table":[{"name":"show","answers":[{}]}],"latitude":{"redirect":1}}"#,
        br#"{"calls":[{"argv":["show","1"],"env":{},"input":null}],"end":"ended","err":"","files":{},"out":"","status":0,"turns":0}
"#,
    ),
    // an empty text beside a list without members
    (
        br#"{"script":"show \"$@$u\"","table":[{"name":"show","answers":[{}]}]}"#,
        br#"{"calls":[],"end":"unspecified","err":"","files":null,"out":"","status":null,"turns":0}
"#,
    ),
    // in front of it too
    (
        br#"{"script":"show \"$u\"\"$@\"","table":[{"name":"show","answers":[{}]}]}"#,
        br#"{"calls":[],"end":"unspecified","err":"","files":null,"out":"","status":null,"turns":0}
"#,
    ),
    // a text beside a list without members, and a list alone
    (
        br#"{"script":"show \"a$@\" \"$@\"; set -- b; show \"$@$u\"","table":[{"name":"show","answers":[{}]}]}"#,
        br#"{"calls":[{"argv":["show","a"],"env":{},"input":null},{"argv":["show","b"],"env":{},"input":null}],"end":"ended","err":"","files":{},"out":"","status":0,"turns":0}
"#,
    ),
];
