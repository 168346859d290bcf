//! Turns and levels: a run that needs one more goes on.

pub const ROWS: [(&[u8], &[u8]); 30] = [
    // no turns are needed
    (
        br#"{"script":"show a; while false; do :; done","table":[{"name":"show","answers":[{}]}],"turns":0}"#,
        br#"{"calls":[{"argv":["show","a"],"env":{},"input":null}],"end":"ended","err":"","files":{},"out":"","status":0,"turns":0}
"#,
    ),
    // a loop without a turn
    (
        br#"{"script":"show a; for i in 1; do show b; done","table":[{"name":"show","answers":[{}]}],"turns":0}"#,
        br#"{"calls":[{"argv":["show","a"],"env":{},"input":null}],"end":"goes-on","err":"","files":null,"out":"","status":null,"turns":0}
"#,
    ),
    // one turn too few
    (
        br#"{"script":"for i in 1 2 3; do show $i; done; show a","table":[{"name":"show","answers":[{}]}],"turns":2}"#,
        br#"{"calls":[{"argv":["show","1"],"env":{},"input":null},{"argv":["show","2"],"env":{},"input":null}],"end":"goes-on","err":"","files":null,"out":"","status":null,"turns":2}
"#,
    ),
    // as many as are needed
    (
        br#"{"script":"for i in 1 2 3; do show $i; done; show a","table":[{"name":"show","answers":[{}]}],"turns":3}"#,
        br#"{"calls":[{"argv":["show","1"],"env":{},"input":null},{"argv":["show","2"],"env":{},"input":null},{"argv":["show","3"],"env":{},"input":null},{"argv":["show","a"],"env":{},"input":null}],"end":"ended","err":"","files":{},"out":"","status":0,"turns":3}
"#,
    ),
    // one more
    (
        br#"{"script":"for i in 1 2 3; do show $i; done; show a","table":[{"name":"show","answers":[{}]}],"turns":4}"#,
        br#"{"calls":[{"argv":["show","1"],"env":{},"input":null},{"argv":["show","2"],"env":{},"input":null},{"argv":["show","3"],"env":{},"input":null},{"argv":["show","a"],"env":{},"input":null}],"end":"ended","err":"","files":{},"out":"","status":0,"turns":3}
"#,
    ),
    // a loop without end
    (
        br#"{"script":"while :; do show a; done","table":[{"name":"show","answers":[{}]}],"turns":3}"#,
        br#"{"calls":[{"argv":["show","a"],"env":{},"input":null},{"argv":["show","a"],"env":{},"input":null},{"argv":["show","a"],"env":{},"input":null}],"end":"goes-on","err":"","files":null,"out":"","status":null,"turns":3}
"#,
    ),
    // a loop without end and without commands outside
    (
        br#"{"script":"until false; do :; done","turns":500}"#,
        br#"{"calls":[],"end":"goes-on","err":"","files":null,"out":"","status":null,"turns":500}
"#,
    ),
    // `continue` in a test without end
    (
        br#"{"script":"while continue; do :; done","turns":5}"#,
        br#"{"calls":[],"end":"goes-on","err":"","files":null,"out":"","status":null,"turns":5}
"#,
    ),
    // a call without a turn
    (
        br#"{"script":"f() { show a; }; f","table":[{"name":"show","answers":[{}]}],"turns":0}"#,
        br#"{"calls":[],"end":"goes-on","err":"","files":null,"out":"","status":null,"turns":0}
"#,
    ),
    // a call with one
    (
        br#"{"script":"f() { show a; }; f","table":[{"name":"show","answers":[{}]}],"turns":1}"#,
        br#"{"calls":[{"argv":["show","a"],"env":{},"input":null}],"end":"ended","err":"","files":{},"out":"","status":0,"turns":1}
"#,
    ),
    // calls and rounds share the turns
    (
        br#"{"script":"f() { for i in 1 2; do show $i; done; }; f; f","table":[{"name":"show","answers":[{}]}],"turns":5}"#,
        br#"{"calls":[{"argv":["show","1"],"env":{},"input":null},{"argv":["show","2"],"env":{},"input":null},{"argv":["show","1"],"env":{},"input":null}],"end":"goes-on","err":"","files":null,"out":"","status":null,"turns":5}
"#,
    ),
    // calls and rounds with enough turns
    (
        br#"{"script":"f() { for i in 1 2; do show $i; done; }; f; f","table":[{"name":"show","answers":[{}]}],"turns":6}"#,
        br#"{"calls":[{"argv":["show","1"],"env":{},"input":null},{"argv":["show","2"],"env":{},"input":null},{"argv":["show","1"],"env":{},"input":null},{"argv":["show","2"],"env":{},"input":null}],"end":"ended","err":"","files":{},"out":"","status":0,"turns":6}
"#,
    ),
    // no level
    (
        br#"{"script":"show a; f() { show b; }; f","table":[{"name":"show","answers":[{}]}],"depth":0}"#,
        br#"{"calls":[{"argv":["show","a"],"env":{},"input":null}],"end":"goes-on","err":"","files":null,"out":"","status":null,"turns":1}
"#,
    ),
    // one level
    (
        br#"{"script":"f() { show b; }; f; f","table":[{"name":"show","answers":[{}]}],"depth":1}"#,
        br#"{"calls":[{"argv":["show","b"],"env":{},"input":null},{"argv":["show","b"],"env":{},"input":null}],"end":"ended","err":"","files":{},"out":"","status":0,"turns":2}
"#,
    ),
    // one level too few
    (
        br#"{"script":"g() { show g; }; f() { show f; g; show no; }; f","table":[{"name":"show","answers":[{}]}],"depth":1}"#,
        br#"{"calls":[{"argv":["show","f"],"env":{},"input":null}],"end":"goes-on","err":"","files":null,"out":"","status":null,"turns":2}
"#,
    ),
    // as many levels as are needed
    (
        br#"{"script":"g() { show g; }; f() { show f; g; show f; }; f","table":[{"name":"show","answers":[{}]}],"depth":2}"#,
        br#"{"calls":[{"argv":["show","f"],"env":{},"input":null},{"argv":["show","g"],"env":{},"input":null},{"argv":["show","f"],"env":{},"input":null}],"end":"ended","err":"","files":{},"out":"","status":0,"turns":2}
"#,
    ),
    // one more
    (
        br#"{"script":"g() { show g; }; f() { show f; g; show f; }; f","table":[{"name":"show","answers":[{}]}],"depth":3}"#,
        br#"{"calls":[{"argv":["show","f"],"env":{},"input":null},{"argv":["show","g"],"env":{},"input":null},{"argv":["show","f"],"env":{},"input":null}],"end":"ended","err":"","files":{},"out":"","status":0,"turns":2}
"#,
    ),
    // recursion without end
    (
        br#"{"script":"f() { show $1; f x$1; }; f","table":[{"name":"show","answers":[{}]}]}"#,
        br#"{"calls":[{"argv":["show"],"env":{},"input":null},{"argv":["show","x"],"env":{},"input":null},{"argv":["show","xx"],"env":{},"input":null},{"argv":["show","xxx"],"env":{},"input":null},{"argv":["show","xxxx"],"env":{},"input":null},{"argv":["show","xxxxx"],"env":{},"input":null},{"argv":["show","xxxxxx"],"env":{},"input":null},{"argv":["show","xxxxxxx"],"env":{},"input":null},{"argv":["show","xxxxxxxx"],"env":{},"input":null},{"argv":["show","xxxxxxxxx"],"env":{},"input":null},{"argv":["show","xxxxxxxxxx"],"env":{},"input":null},{"argv":["show","xxxxxxxxxxx"],"env":{},"input":null},{"argv":["show","xxxxxxxxxxxx"],"env":{},"input":null},{"argv":["show","xxxxxxxxxxxxx"],"env":{},"input":null},{"argv":["show","xxxxxxxxxxxxxx"],"env":{},"input":null},{"argv":["show","xxxxxxxxxxxxxxx"],"env":{},"input":null},{"argv":["show","xxxxxxxxxxxxxxxx"],"env":{},"input":null},{"argv":["show","xxxxxxxxxxxxxxxxx"],"env":{},"input":null},{"argv":["show","xxxxxxxxxxxxxxxxxx"],"env":{},"input":null},{"argv":["show","xxxxxxxxxxxxxxxxxxx"],"env":{},"input":null},{"argv":["show","xxxxxxxxxxxxxxxxxxxx"],"env":{},"input":null},{"argv":["show","xxxxxxxxxxxxxxxxxxxxx"],"env":{},"input":null},{"argv":["show","xxxxxxxxxxxxxxxxxxxxxx"],"env":{},"input":null},{"argv":["show","xxxxxxxxxxxxxxxxxxxxxxx"],"env":{},"input":null},{"argv":["show","xxxxxxxxxxxxxxxxxxxxxxxx"],"env":{},"input":null},{"argv":["show","xxxxxxxxxxxxxxxxxxxxxxxxx"],"env":{},"input":null},{"argv":["show","xxxxxxxxxxxxxxxxxxxxxxxxxx"],"env":{},"input":null},{"argv":["show","xxxxxxxxxxxxxxxxxxxxxxxxxxx"],"env":{},"input":null},{"argv":["show","xxxxxxxxxxxxxxxxxxxxxxxxxxxx"],"env":{},"input":null},{"argv":["show","xxxxxxxxxxxxxxxxxxxxxxxxxxxxx"],"env":{},"input":null},{"argv":["show","xxxxxxxxxxxxxxxxxxxxxxxxxxxxxx"],"env":{},"input":null},{"argv":["show","xxxxxxxxxxxxxxxxxxxxxxxxxxxxxxx"],"env":{},"input":null}],"end":"goes-on","err":"","files":null,"out":"","status":null,"turns":33}
"#,
    ),
    // by the usual levels
    (
        br#"{"script":"f() { f; }; f"}"#,
        br#"{"calls":[],"end":"goes-on","err":"","files":null,"out":"","status":null,"turns":33}
"#,
    ),
    // recursion to the last level
    (
        br#"{"script":"f() { [ $1 = 1 ] || f $(($1-1)); }; f 32; show a","table":[{"name":"show","answers":[{}]}]}"#,
        br#"{"calls":[{"argv":["show","a"],"env":{},"input":null}],"end":"ended","err":"","files":{},"out":"","status":0,"turns":32}
"#,
    ),
    // where turns and levels are missing, the turn isn't used
    (
        br#"{"script":"f() { f; }; f","turns":2,"depth":2}"#,
        br#"{"calls":[],"end":"goes-on","err":"","files":null,"out":"","status":null,"turns":2}
"#,
    ),
    // a subshell and a substitution go on
    (
        br#"{"script":"(for i in 1 2; do show $i; done) | show a; show b","table":[{"name":"show","answers":[{}]}],"turns":1}"#,
        br#"{"calls":[{"argv":["show","1"],"env":{},"input":null}],"end":"goes-on","err":"","files":null,"out":"","status":null,"turns":1}
"#,
    ),
    // a substitution
    (
        br#"{"script":"x=$(f() { f; }; f); show b","table":[{"name":"show","answers":[{}]}],"depth":0}"#,
        br#"{"calls":[],"end":"goes-on","err":"","files":null,"out":"","status":null,"turns":1}
"#,
    ),
    // output in a pipeline isn't written
    (
        br#"{"script":"echo a; { echo b; for i in 1; do :; done; } | show a","table":[{"name":"show","answers":[{}]}],"turns":0}"#,
        br#"{"calls":[],"end":"goes-on","err":"","files":null,"out":"a\n","status":null,"turns":0}
"#,
    ),
    // what was written stays
    (
        br#"{"script":"echo a; echo b >&2; echo c > f; for i in 1; do :; done","turns":0}"#,
        br#"{"calls":[],"end":"goes-on","err":"b\n","files":null,"out":"a\n","status":null,"turns":0}
"#,
    ),
    // a subshell's level comes free again
    (
        br#"{"script":"f() { (g); g; }; g() { show g; }; (f); f","table":[{"name":"show","answers":[{}]}],"depth":2}"#,
        br#"{"calls":[{"argv":["show","g"],"env":{},"input":null},{"argv":["show","g"],"env":{},"input":null},{"argv":["show","g"],"env":{},"input":null},{"argv":["show","g"],"env":{},"input":null}],"end":"ended","err":"","files":{},"out":"","status":0,"turns":6}
"#,
    ),
    // levels come free by `return` and `continue`
    (
        br#"{"script":"f() { return; }; g() { for i in 1 2; do f; continue; done; }; g; g; show a","table":[{"name":"show","answers":[{}]}],"depth":2}"#,
        br#"{"calls":[{"argv":["show","a"],"env":{},"input":null}],"end":"ended","err":"","files":{},"out":"","status":0,"turns":10}
"#,
    ),
    // `exit` in a function of a subshell
    (
        br#"{"script":"f() { exit 3; }; (f); (f); f","depth":1}"#,
        br#"{"calls":[],"end":"ended","err":"","files":{},"out":"","status":3,"turns":3}
"#,
    ),
    // external commands take none
    (
        br#"{"script":"show a; gone; x=$(show b); show c | show d","table":[{"name":"show","answers":[{}]}],"turns":0,"depth":0}"#,
        br#"{"calls":[{"argv":["show","a"],"env":{},"input":null},{"argv":["gone"],"env":{},"input":null},{"argv":["show","b"],"env":{},"input":null},{"argv":["show","c"],"env":{},"input":null},{"argv":["show","d"],"env":{},"input":null}],"end":"ended","err":"","files":{},"out":"","status":0,"turns":0}
"#,
    ),
    // the most that may be asked for
    (
        br#"{"script":"for i in 1; do show $i; done","table":[{"name":"show","answers":[{}]}],"turns":10000000,"depth":32}"#,
        br#"{"calls":[{"argv":["show","1"],"env":{},"input":null}],"end":"ended","err":"","files":{},"out":"","status":0,"turns":1}
"#,
    ),
];
