//! Functions (XCU 2.9.5).

pub const ROWS: [(&[u8], &[u8]); 19] = [
    // parameters
    (
        br#"{"script":"f() { show \"$#\" \"$@\"; }; f a \"b c\"; show \"$#\" \"$1\"","args":["script","p"],"table":[{"name":"show","answers":[{}]}]}"#,
        br#"{"calls":[{"argv":["show","2","a","b c"],"env":{},"input":null},{"argv":["show","1","p"],"env":{},"input":null}],"end":"ended","err":"","files":{},"out":"","status":0,"turns":1}
"#,
    ),
    // the name of the script stays
    (
        br#"{"script":"f() { show \"$0\"; }; f a","args":["s0"],"table":[{"name":"show","answers":[{}]}]}"#,
        br#"{"calls":[{"argv":["show","s0"],"env":{},"input":null}],"end":"ended","err":"","files":{},"out":"","status":0,"turns":1}
"#,
    ),
    // parameters that are set in a function
    (
        br#"{"script":"f() { set -- x y; show \"$@\"; shift; show \"$@\"; }; f a; show \"$@\"","args":["script","p"],"table":[{"name":"show","answers":[{}]}]}"#,
        br#"{"calls":[{"argv":["show","x","y"],"env":{},"input":null},{"argv":["show","y"],"env":{},"input":null},{"argv":["show","p"],"env":{},"input":null}],"end":"ended","err":"","files":{},"out":"","status":0,"turns":1}
"#,
    ),
    // variables are global
    (
        br#"{"script":"f() { x=2 y=$x; export z=3; }; x=1; f; show $x $y","table":[{"name":"show","answers":[{}]}]}"#,
        br#"{"calls":[{"argv":["show","2","2"],"env":{"z":"3"},"input":null}],"end":"ended","err":"","files":{},"out":"","status":0,"turns":1}
"#,
    ),
    // recursion
    (
        br#"{"script":"f() { show \"$1\"; [ \"$1\" = 0 ] || f $(($1-1)); show \"b$1\"; }; f 2","table":[{"name":"show","answers":[{}]}]}"#,
        br#"{"calls":[{"argv":["show","2"],"env":{},"input":null},{"argv":["show","1"],"env":{},"input":null},{"argv":["show","0"],"env":{},"input":null},{"argv":["show","b0"],"env":{},"input":null},{"argv":["show","b1"],"env":{},"input":null},{"argv":["show","b2"],"env":{},"input":null}],"end":"ended","err":"","files":{},"out":"","status":0,"turns":3}
"#,
    ),
    // the last definition counts
    (
        br#"{"script":"f() { show 1; }; f() { show 2; }; f","table":[{"name":"show","answers":[{}]}]}"#,
        br#"{"calls":[{"argv":["show","2"],"env":{},"input":null}],"end":"ended","err":"","files":{},"out":"","status":0,"turns":1}
"#,
    ),
    // a definition in a function
    (
        br#"{"script":"f() { g() { show g; }; }; f; g","table":[{"name":"show","answers":[{}]}]}"#,
        br#"{"calls":[{"argv":["show","g"],"env":{},"input":null}],"end":"ended","err":"","files":{},"out":"","status":0,"turns":2}
"#,
    ),
    // a function that defines itself anew
    (
        br#"{"script":"f() { f() { show b; }; show a; }; f; f","table":[{"name":"show","answers":[{}]}]}"#,
        br#"{"calls":[{"argv":["show","a"],"env":{},"input":null},{"argv":["show","b"],"env":{},"input":null}],"end":"ended","err":"","files":{},"out":"","status":0,"turns":2}
"#,
    ),
    // a definition stands from where it is run
    (
        br#"{"script":"f; f() { show a; }; f","table":[{"name":"show","answers":[{}]}]}"#,
        br#"{"calls":[{"argv":["f"],"env":{},"input":null},{"argv":["show","a"],"env":{},"input":null}],"end":"ended","err":"","files":{},"out":"","status":0,"turns":1}
"#,
    ),
    // a definition that isn't run
    (
        br#"{"script":"false && f() { show a; }; f; show $?","table":[{"name":"show","answers":[{}]}]}"#,
        br#"{"calls":[{"argv":["f"],"env":{},"input":null},{"argv":["show","127"],"env":{},"input":null}],"end":"ended","err":"","files":{},"out":"","status":0,"turns":0}
"#,
    ),
    // any compound command is a body
    (
        br#"{"script":"x=1; f() (x=2; show $x); f; show $x; g() if true; then show a; fi; g; h() for i do show $i; done; h 1 2; k() case $1 in a) show c ;; esac; k a","table":[{"name":"show","answers":[{}]}]}"#,
        br#"{"calls":[{"argv":["show","2"],"env":{},"input":null},{"argv":["show","1"],"env":{},"input":null},{"argv":["show","a"],"env":{},"input":null},{"argv":["show","1"],"env":{},"input":null},{"argv":["show","2"],"env":{},"input":null},{"argv":["show","c"],"env":{},"input":null}],"end":"ended","err":"","files":{},"out":"","status":0,"turns":6}
"#,
    ),
    // a loop as a body
    (
        br#"{"script":"f() while [ \"$1\" ]; do show $1; shift; done; f a b","table":[{"name":"show","answers":[{}]}]}"#,
        br#"{"calls":[{"argv":["show","a"],"env":{},"input":null},{"argv":["show","b"],"env":{},"input":null}],"end":"ended","err":"","files":{},"out":"","status":0,"turns":3}
"#,
    ),
    // a function goes before an external command, and may be computed
    (
        br#"{"script":"show() { echo \"f$1\"; }; show a; x=show; $x b","table":[{"name":"show","answers":[{}]}]}"#,
        br#"{"calls":[],"end":"ended","err":"","files":{},"out":"fa\nfb\n","status":0,"turns":2}
"#,
    ),
    // functions in a pipeline and in a substitution
    (
        br#"{"script":"f() { while read -r x; do echo \"<$x>\"; done; }; printf 'a\\nb\\n' | f | cat; show \"$(echo c | f)\"","table":[{"name":"show","answers":[{}]},{"name":"cat","input":true,"answers":[{}]}]}"#,
        br#"{"calls":[{"argv":["cat"],"env":{},"input":"<a>\n<b>\n"},{"argv":["show","<c>"],"env":{},"input":null}],"end":"ended","err":"","files":{},"out":"","status":0,"turns":5}
"#,
    ),
    // a function and a variable of one name
    (
        br#"{"script":"f=1; f() { show $f; }; f","table":[{"name":"show","answers":[{}]}]}"#,
        br#"{"calls":[{"argv":["show","1"],"env":{},"input":null}],"end":"ended","err":"","files":{},"out":"","status":0,"turns":1}
"#,
    ),
    // the status of a function
    (
        br#"{"script":"f() { three; }; f; show $?; g() { ! :; }; g || show $?","table":[{"name":"show","answers":[{}]},{"name":"three","answers":[{"status":3}]}]}"#,
        br#"{"calls":[{"argv":["three"],"env":{},"input":null},{"argv":["show","3"],"env":{},"input":null},{"argv":["show","1"],"env":{},"input":null}],"end":"ended","err":"","files":{},"out":"","status":0,"turns":2}
"#,
    ),
    // the status before is seen inside
    (
        br#"{"script":"f() { show $?; }; false; f; three; f","table":[{"name":"show","answers":[{}]},{"name":"three","answers":[{"status":3}]}]}"#,
        br#"{"calls":[{"argv":["show","1"],"env":{},"input":null},{"argv":["three"],"env":{},"input":null},{"argv":["show","3"],"env":{},"input":null}],"end":"ended","err":"","files":{},"out":"","status":0,"turns":2}
"#,
    ),
    // `for` over the parameters of the function
    (
        br#"{"script":"f() { for i; do show $i; done; }; f \"$@\" c","args":["script","a","b"],"table":[{"name":"show","answers":[{}]}]}"#,
        br#"{"calls":[{"argv":["show","a"],"env":{},"input":null},{"argv":["show","b"],"env":{},"input":null},{"argv":["show","c"],"env":{},"input":null}],"end":"ended","err":"","files":{},"out":"","status":0,"turns":4}
"#,
    ),
    // two functions that call each other
    (
        br#"{"script":"f() { [ $1 = 0 ] || g $(($1-1)); show f$1; }; g() { f $1; show g$1; }; f 1","table":[{"name":"show","answers":[{}]}]}"#,
        br#"{"calls":[{"argv":["show","f0"],"env":{},"input":null},{"argv":["show","g0"],"env":{},"input":null},{"argv":["show","f1"],"env":{},"input":null}],"end":"ended","err":"","files":{},"out":"","status":0,"turns":3}
"#,
    ),
];
