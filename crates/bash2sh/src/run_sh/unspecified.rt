//! Where nothing specifies what a run does, and beside each place what comes close to it and is specified.

pub const ROWS: [(&[u8], &[u8]); 49] = [
    // a division by 0
    (
        br#"{"script":": $((1/0))"}"#,
        br#"{"calls":[],"end":"unspecified","err":"","files":null,"out":"","status":null,"turns":0}
"#,
    ),
    // a remainder by 0, in a command that would have been made
    (
        br#"{"script":"show a; show $((1%0)); show b","table":[{"name":"show","answers":[{}]}]}"#,
        br#"{"calls":[{"argv":["show","a"],"env":{},"input":null}],"end":"unspecified","err":"","files":null,"out":"","status":null,"turns":0}
"#,
    ),
    // a division that isn't evaluated
    (
        br#"{"script":"show $((1||1/0))","table":[{"name":"show","answers":[{}]}]}"#,
        br#"{"calls":[{"argv":["show","1"],"env":{},"input":null}],"end":"ended","err":"","files":{},"out":"","status":0,"turns":0}
"#,
    ),
    // a shift beyond 63
    (
        br#"{"script":": $((1<<64))"}"#,
        br#"{"calls":[],"end":"unspecified","err":"","files":null,"out":"","status":null,"turns":0}
"#,
    ),
    // a negative shift
    (
        br#"{"script":"x=-1; : $((1>>x))"}"#,
        br#"{"calls":[],"end":"unspecified","err":"","files":null,"out":"","status":null,"turns":0}
"#,
    ),
    // an unset name in arithmetic
    (
        br#"{"script":"show a; show $((u+1))","table":[{"name":"show","answers":[{}]}]}"#,
        br#"{"calls":[{"argv":["show","a"],"env":{},"input":null}],"end":"unspecified","err":"","files":null,"out":"","status":null,"turns":0}
"#,
    ),
    // an empty one
    (
        br#"{"script":"x=; : $((x))"}"#,
        br#"{"calls":[],"end":"unspecified","err":"","files":null,"out":"","status":null,"turns":0}
"#,
    ),
    // a name that is no constant
    (
        br#"{"script":"x=1+1; : $((x))"}"#,
        br#"{"calls":[],"end":"unspecified","err":"","files":null,"out":"","status":null,"turns":0}
"#,
    ),
    // a constant that is none in its base
    (
        br#"{"script":"x=08; : $((x))"}"#,
        br#"{"calls":[],"end":"unspecified","err":"","files":null,"out":"","status":null,"turns":0}
"#,
    ),
    // an unset name in a part that isn't taken
    (
        br#"{"script":"show $((0&&u)) $((0?x:2))","table":[{"name":"show","answers":[{}]}]}"#,
        br#"{"calls":[{"argv":["show","0","2"],"env":{},"input":null}],"end":"ended","err":"","files":{},"out":"","status":0,"turns":0}
"#,
    ),
    // an operand that is no constant, in a part that isn't taken too
    (
        br#"{"script":"show $((1||$u))","table":[{"name":"show","answers":[{}]}]}"#,
        br#"{"calls":[],"end":"unspecified","err":"","files":null,"out":"","status":null,"turns":0}
"#,
    ),
    // a signed operand behind a minus sign
    (
        br#"{"script":"x=-1; : $((1 -\n( $x)))"}"#,
        br#"{"calls":[],"end":"unspecified","err":"","files":null,"out":"","status":null,"turns":0}
"#,
    ),
    // a signed operand elsewhere, and a signed name
    (
        br#"{"script":"x=-1; show $((1*$x)) $((1-x)) $(($x))","table":[{"name":"show","answers":[{}]}]}"#,
        br#"{"calls":[{"argv":["show","-1","2","-1"],"env":{},"input":null}],"end":"ended","err":"","files":{},"out":"","status":0,"turns":0}
"#,
    ),
    // a backslash of a value in a pattern
    (
        br#"{"script":"p='\\a'; case a in $p) ;; esac"}"#,
        br#"{"calls":[],"end":"unspecified","err":"","files":null,"out":"","status":null,"turns":0}
"#,
    ),
    // a quoted one
    (
        br#"{"script":"p='\\a'; case '\\a' in \"$p\") show 1 ;; esac; case a in \\a) show 2 ;; esac","table":[{"name":"show","answers":[{}]}]}"#,
        br#"{"calls":[{"argv":["show","1"],"env":{},"input":null},{"argv":["show","2"],"env":{},"input":null}],"end":"ended","err":"","files":{},"out":"","status":0,"turns":0}
"#,
    ),
    // a class that isn't known
    (
        br#"{"script":"case a in [[:foo:]]) ;; esac"}"#,
        br#"{"calls":[],"end":"unspecified","err":"","files":null,"out":"","status":null,"turns":0}
"#,
    ),
    // a range that ends below its start
    (
        br#"{"script":"x=a; : ${x#[b-a]}"}"#,
        br#"{"calls":[],"end":"unspecified","err":"","files":null,"out":"","status":null,"turns":0}
"#,
    ),
    // an equivalence class
    (
        br#"{"script":"case a in [[=a=]]) ;; esac"}"#,
        br#"{"calls":[],"end":"unspecified","err":"","files":null,"out":"","status":null,"turns":0}
"#,
    ),
    // a slash in a bracket of a path
    (
        br#"{"script":"show [a/b]","files":{"a":""},"table":[{"name":"show","answers":[{}]}]}"#,
        br#"{"calls":[],"end":"unspecified","err":"","files":null,"out":"","status":null,"turns":0}
"#,
    ),
    // a pattern that isn't reached
    (
        br#"{"script":"case a in a) show 1 ;; [[.a.]]) ;; esac","table":[{"name":"show","answers":[{}]}]}"#,
        br#"{"calls":[{"argv":["show","1"],"env":{},"input":null}],"end":"ended","err":"","files":{},"out":"","status":0,"turns":0}
"#,
    ),
    // a range in order, and a bracket that isn't closed
    (
        br#"{"script":"case b in [a-c]) show 1 ;; esac; case \"[b-a\" in [b-a) show 2 ;; esac","table":[{"name":"show","answers":[{}]}]}"#,
        br#"{"calls":[{"argv":["show","1"],"env":{},"input":null},{"argv":["show","2"],"env":{},"input":null}],"end":"ended","err":"","files":{},"out":"","status":0,"turns":0}
"#,
    ),
    // `test` by another operator
    (
        br#"{"script":"test 1 == 1"}"#,
        br#"{"calls":[],"end":"unspecified","err":"","files":null,"out":"","status":null,"turns":0}
"#,
    ),
    // by its own
    (
        br#"{"script":"test 1 = 1; show $?","table":[{"name":"show","answers":[{}]}]}"#,
        br#"{"calls":[{"argv":["show","0"],"env":{},"input":null}],"end":"ended","err":"","files":{},"out":"","status":0,"turns":0}
"#,
    ),
    // a format outside of those of `printf`
    (
        br#"{"script":"printf '%q' a"}"#,
        br#"{"calls":[],"end":"unspecified","err":"","files":null,"out":"","status":null,"turns":0}
"#,
    ),
    // a text that is an argument
    (
        br#"{"script":"printf %s %q"}"#,
        br#"{"calls":[],"end":"ended","err":"","files":{},"out":"%q","status":0,"turns":0}
"#,
    ),
    // the word of `exit` is no status
    (
        br#"{"script":"exit 256"}"#,
        br#"{"calls":[],"end":"unspecified","err":"","files":null,"out":"","status":null,"turns":0}
"#,
    ),
    // nor is a negative one
    (
        br#"{"script":"x=-1; exit $x"}"#,
        br#"{"calls":[],"end":"unspecified","err":"","files":null,"out":"","status":null,"turns":0}
"#,
    ),
    // the word of `return` is no number
    (
        br#"{"script":"f() { return a; }; f"}"#,
        br#"{"calls":[],"end":"unspecified","err":"","files":null,"out":"","status":null,"turns":1}
"#,
    ),
    // a status in other digits
    (
        br#"{"script":"f() { return 0255; }; f; show $?","table":[{"name":"show","answers":[{}]}]}"#,
        br#"{"calls":[{"argv":["show","255"],"env":{},"input":null}],"end":"ended","err":"","files":{},"out":"","status":0,"turns":1}
"#,
    ),
    // arguments that a format doesn't use
    (
        br#"{"script":"printf a b"}"#,
        br#"{"calls":[],"end":"unspecified","err":"","files":null,"out":"","status":null,"turns":0}
"#,
    ),
    // a percent sign that is printed is no conversion
    (
        br#"{"script":"printf '%%' b"}"#,
        br#"{"calls":[],"end":"unspecified","err":"","files":null,"out":"","status":null,"turns":0}
"#,
    ),
    // no arguments
    (
        br#"{"script":"printf a; printf %s b"}"#,
        br#"{"calls":[],"end":"ended","err":"","files":{},"out":"ab","status":0,"turns":0}
"#,
    ),
    // `shift` beyond the parameters
    (
        br#"{"script":"shift 2","args":["script","a"]}"#,
        br#"{"calls":[],"end":"unspecified","err":"","files":null,"out":"","status":null,"turns":0}
"#,
    ),
    // `shift` of them all, and of none
    (
        br#"{"script":"shift 1; shift 0; show $#","args":["script","a"],"table":[{"name":"show","answers":[{}]}]}"#,
        br#"{"calls":[{"argv":["show","0"],"env":{},"input":null}],"end":"ended","err":"","files":{},"out":"","status":0,"turns":0}
"#,
    ),
    // `shift` of a text
    (
        br#"{"script":"shift a","args":["script","a"]}"#,
        br#"{"calls":[],"end":"unspecified","err":"","files":null,"out":"","status":null,"turns":0}
"#,
    ),
    // `break` outside of a loop
    (
        br#"{"script":"show a; break","table":[{"name":"show","answers":[{}]}]}"#,
        br#"{"calls":[{"argv":["show","a"],"env":{},"input":null}],"end":"unspecified","err":"","files":null,"out":"","status":null,"turns":0}
"#,
    ),
    // `break` beyond the loops
    (
        br#"{"script":"for i in 1; do break 2; done"}"#,
        br#"{"calls":[],"end":"unspecified","err":"","files":null,"out":"","status":null,"turns":1}
"#,
    ),
    // `continue` in a function that a loop calls
    (
        br#"{"script":"f() { continue; }; for i in 1; do f; done"}"#,
        br#"{"calls":[],"end":"unspecified","err":"","files":null,"out":"","status":null,"turns":2}
"#,
    ),
    // `break` in a subshell
    (
        br#"{"script":"for i in 1; do (break); done"}"#,
        br#"{"calls":[],"end":"unspecified","err":"","files":null,"out":"","status":null,"turns":1}
"#,
    ),
    // `break 0`
    (
        br#"{"script":"for i in 1; do break 0; done"}"#,
        br#"{"calls":[],"end":"unspecified","err":"","files":null,"out":"","status":null,"turns":1}
"#,
    ),
    // a computed number of `break`
    (
        br#"{"script":"n=1; for i in 1; do break $n; done"}"#,
        br#"{"calls":[],"end":"unspecified","err":"","files":null,"out":"","status":null,"turns":1}
"#,
    ),
    // `return` outside of a function
    (
        br#"{"script":"return 0"}"#,
        br#"{"calls":[],"end":"unspecified","err":"","files":null,"out":"","status":null,"turns":0}
"#,
    ),
    // `return` in a function's subshell
    (
        br#"{"script":"f() { (return 1); show a; }; f","table":[{"name":"show","answers":[{}]}]}"#,
        br#"{"calls":[],"end":"unspecified","err":"","files":null,"out":"","status":null,"turns":1}
"#,
    ),
    // `return` in a substitution
    (
        br#"{"script":"f() { : $(return 1); }; f"}"#,
        br#"{"calls":[],"end":"unspecified","err":"","files":null,"out":"","status":null,"turns":1}
"#,
    ),
    // what isn't run isn't met
    (
        br#"{"script":"false && break; f() { return; }; show a || return; if false; then continue; fi","table":[{"name":"show","answers":[{}]}]}"#,
        br#"{"calls":[{"argv":["show","a"],"env":{},"input":null}],"end":"ended","err":"","files":{},"out":"","status":0,"turns":0}
"#,
    ),
    // `echo` whose first word begins with a minus sign
    (
        br#"{"script":"echo -n a"}"#,
        br#"{"calls":[],"end":"unspecified","err":"","files":null,"out":"","status":null,"turns":0}
"#,
    ),
    // so does one from an expansion
    (
        br#"{"script":"x=-; echo $x"}"#,
        br#"{"calls":[],"end":"unspecified","err":"","files":null,"out":"","status":null,"turns":0}
"#,
    ),
    // `echo` of a backslash
    (
        br#"{"script":"echo a 'b\\c'"}"#,
        br#"{"calls":[],"end":"unspecified","err":"","files":null,"out":"","status":null,"turns":0}
"#,
    ),
    // a minus sign in a later word
    (
        br#"{"script":"echo a -n; echo \"\" -e; echo $u b"}"#,
        br#"{"calls":[],"end":"ended","err":"","files":{},"out":"a -n\n -e\nb\n","status":0,"turns":0}
"#,
    ),
];
