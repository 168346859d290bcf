//! `break`, `continue`, `return` and `exit` (XCU 2.14).

pub const ROWS: [(&[u8], &[u8]); 30] = [
    // `break` leaves the loop
    (
        br#"{"script":"for i in 1 2 3; do show $i; break; done; show $?","table":[{"name":"show","answers":[{}]}]}"#,
        br#"{"calls":[{"argv":["show","1"],"env":{},"input":null},{"argv":["show","0"],"env":{},"input":null}],"end":"ended","err":"","files":{},"out":"","status":0,"turns":1}
"#,
    ),
    // it leaves so many loops
    (
        br#"{"script":"for i in 1 2; do for j in a b; do show $i$j; break 2; done; show no; done; show end","table":[{"name":"show","answers":[{}]}]}"#,
        br#"{"calls":[{"argv":["show","1a"],"env":{},"input":null},{"argv":["show","end"],"env":{},"input":null}],"end":"ended","err":"","files":{},"out":"","status":0,"turns":2}
"#,
    ),
    // and no more
    (
        br#"{"script":"for i in 1 2; do for j in a b; do show $i$j; break 1; done; show $i; done","table":[{"name":"show","answers":[{}]}]}"#,
        br#"{"calls":[{"argv":["show","1a"],"env":{},"input":null},{"argv":["show","1"],"env":{},"input":null},{"argv":["show","2a"],"env":{},"input":null},{"argv":["show","2"],"env":{},"input":null}],"end":"ended","err":"","files":{},"out":"","status":0,"turns":4}
"#,
    ),
    // `continue` starts the next round
    (
        br#"{"script":"for i in 1 2 3; do [ $i = 2 ] && continue; show $i; done; show $?","table":[{"name":"show","answers":[{}]}]}"#,
        br#"{"calls":[{"argv":["show","1"],"env":{},"input":null},{"argv":["show","3"],"env":{},"input":null},{"argv":["show","0"],"env":{},"input":null}],"end":"ended","err":"","files":{},"out":"","status":0,"turns":3}
"#,
    ),
    // of so many loops
    (
        br#"{"script":"for i in 1 2; do for j in a b; do show $i$j; continue 2; done; show no; done","table":[{"name":"show","answers":[{}]}]}"#,
        br#"{"calls":[{"argv":["show","1a"],"env":{},"input":null},{"argv":["show","2a"],"env":{},"input":null}],"end":"ended","err":"","files":{},"out":"","status":0,"turns":4}
"#,
    ),
    // `break` in a test
    (
        br#"{"script":"false; while break; do :; done; show $?; until { show a; break; }; do :; done","table":[{"name":"show","answers":[{}]}]}"#,
        br#"{"calls":[{"argv":["show","0"],"env":{},"input":null},{"argv":["show","a"],"env":{},"input":null}],"end":"ended","err":"","files":{},"out":"","status":0,"turns":0}
"#,
    ),
    // `continue` in a test starts a round, which takes a turn as a body would
    (
        br#"{"script":"n=0; while n=$((n+1)); [ $n = 3 ] && break; continue; do show no; done; show $n","table":[{"name":"show","answers":[{}]}]}"#,
        br#"{"calls":[{"argv":["show","3"],"env":{},"input":null}],"end":"ended","err":"","files":{},"out":"","status":0,"turns":2}
"#,
    ),
    // `continue` in a `while`
    (
        br#"{"script":"n=0; while [ $n != 3 ]; do n=$((n+1)); [ $n = 2 ] && continue; show $n; done; show $?","table":[{"name":"show","answers":[{}]}]}"#,
        br#"{"calls":[{"argv":["show","1"],"env":{},"input":null},{"argv":["show","3"],"env":{},"input":null},{"argv":["show","0"],"env":{},"input":null}],"end":"ended","err":"","files":{},"out":"","status":0,"turns":3}
"#,
    ),
    // three loops
    (
        br#"{"script":"for i in 1 2; do while :; do until false; do break 3; done; done; done; show $i","table":[{"name":"show","answers":[{}]}]}"#,
        br#"{"calls":[{"argv":["show","1"],"env":{},"input":null}],"end":"ended","err":"","files":{},"out":"","status":0,"turns":3}
"#,
    ),
    // a jump out of other commands
    (
        br#"{"script":"for i in 1 2; do if true; then case $i in 1) { continue; } ;; *) break ;; esac; fi; show no; done; show $i","table":[{"name":"show","answers":[{}]}]}"#,
        br#"{"calls":[{"argv":["show","2"],"env":{},"input":null}],"end":"ended","err":"","files":{},"out":"","status":0,"turns":2}
"#,
    ),
    // a jump out of a redirection
    (
        br#"{"script":"for i in 1 2; do { echo $i; break; } > f; done; echo b"}"#,
        br#"{"calls":[],"end":"ended","err":"","files":{"f":"1\n"},"out":"b\n","status":0,"turns":1}
"#,
    ),
    // the status of a loop that was left
    (
        br#"{"script":"for i in 1; do three; break; done; show $?; for i in 1; do three; continue; done; show $?","table":[{"name":"show","answers":[{}]},{"name":"three","answers":[{"status":3}]}]}"#,
        br#"{"calls":[{"argv":["three"],"env":{},"input":null},{"argv":["show","0"],"env":{},"input":null},{"argv":["three"],"env":{},"input":null},{"argv":["show","0"],"env":{},"input":null}],"end":"ended","err":"","files":{},"out":"","status":0,"turns":2}
"#,
    ),
    // a function's loops are its own
    (
        br#"{"script":"f() { for j in 1 2; do break; done; show f; }; for i in 1 2; do f; done","table":[{"name":"show","answers":[{}]}]}"#,
        br#"{"calls":[{"argv":["show","f"],"env":{},"input":null},{"argv":["show","f"],"env":{},"input":null}],"end":"ended","err":"","files":{},"out":"","status":0,"turns":6}
"#,
    ),
    // `return` leaves the function
    (
        br#"{"script":"f() { return 3; show no; }; f; show $?","table":[{"name":"show","answers":[{}]}]}"#,
        br#"{"calls":[{"argv":["show","3"],"env":{},"input":null}],"end":"ended","err":"","files":{},"out":"","status":0,"turns":1}
"#,
    ),
    // without a word it gives the last status
    (
        br#"{"script":"f() { three; return; }; f; show $?; g() { return; }; false; g; show $?","table":[{"name":"show","answers":[{}]},{"name":"three","answers":[{"status":3}]}]}"#,
        br#"{"calls":[{"argv":["three"],"env":{},"input":null},{"argv":["show","3"],"env":{},"input":null},{"argv":["show","1"],"env":{},"input":null}],"end":"ended","err":"","files":{},"out":"","status":0,"turns":2}
"#,
    ),
    // out of loops and other commands
    (
        br#"{"script":"f() { for i in 1 2; do show $i; { if true; then return 5; fi; }; done; }; f; show $?","table":[{"name":"show","answers":[{}]}]}"#,
        br#"{"calls":[{"argv":["show","1"],"env":{},"input":null},{"argv":["show","5"],"env":{},"input":null}],"end":"ended","err":"","files":{},"out":"","status":0,"turns":2}
"#,
    ),
    // out of the inner function alone
    (
        br#"{"script":"g() { return 2; }; f() { g; show $?; return 4; }; f; show $?","table":[{"name":"show","answers":[{}]}]}"#,
        br#"{"calls":[{"argv":["show","2"],"env":{},"input":null},{"argv":["show","4"],"env":{},"input":null}],"end":"ended","err":"","files":{},"out":"","status":0,"turns":2}
"#,
    ),
    // a word that gives no field is none
    (
        br#"{"script":"f() { false; return $u; }; f; show $?; n=7; g() { return $n; }; g; show $?","table":[{"name":"show","answers":[{}]}]}"#,
        br#"{"calls":[{"argv":["show","1"],"env":{},"input":null},{"argv":["show","7"],"env":{},"input":null}],"end":"ended","err":"","files":{},"out":"","status":0,"turns":2}
"#,
    ),
    // `exit` ends the run
    (
        br#"{"script":"show a; exit 3; show b","table":[{"name":"show","answers":[{}]}]}"#,
        br#"{"calls":[{"argv":["show","a"],"env":{},"input":null}],"end":"ended","err":"","files":{},"out":"","status":3,"turns":0}
"#,
    ),
    // without a word it gives the last status
    (
        br#"{"script":"three; exit","table":[{"name":"three","answers":[{"status":3}]}]}"#,
        br#"{"calls":[{"argv":["three"],"env":{},"input":null}],"end":"ended","err":"","files":{},"out":"","status":3,"turns":0}
"#,
    ),
    // a word that gives no field is none
    (
        br#"{"script":"u=; false; exit $u"}"#,
        br#"{"calls":[],"end":"ended","err":"","files":{},"out":"","status":1,"turns":0}
"#,
    ),
    // the greatest status, and zeros in front
    (
        br#"{"script":"(exit 255); show $?; (exit 007); show $?; x=0; exit $x$((4))","table":[{"name":"show","answers":[{}]}]}"#,
        br#"{"calls":[{"argv":["show","255"],"env":{},"input":null},{"argv":["show","7"],"env":{},"input":null}],"end":"ended","err":"","files":{},"out":"","status":4,"turns":0}
"#,
    ),
    // out of functions and loops
    (
        br#"{"script":"f() { for i in 1 2; do exit $i; done; }; f; show no","table":[{"name":"show","answers":[{}]}]}"#,
        br#"{"calls":[],"end":"ended","err":"","files":{},"out":"","status":1,"turns":2}
"#,
    ),
    // `exit` leaves a subshell alone
    (
        br#"{"script":"(exit 3); show $?; (show a; (exit 2); show $?; exit; show no); show $?","table":[{"name":"show","answers":[{}]}]}"#,
        br#"{"calls":[{"argv":["show","3"],"env":{},"input":null},{"argv":["show","a"],"env":{},"input":null},{"argv":["show","2"],"env":{},"input":null},{"argv":["show","0"],"env":{},"input":null}],"end":"ended","err":"","files":{},"out":"","status":0,"turns":0}
"#,
    ),
    // and a substitution
    (
        br#"{"script":"x=$(printf a; exit 5; printf b); show \"$x\" $?","table":[{"name":"show","answers":[{}]}]}"#,
        br#"{"calls":[{"argv":["show","a","5"],"env":{},"input":null}],"end":"ended","err":"","files":{},"out":"","status":0,"turns":0}
"#,
    ),
    // and a first stage
    (
        br#"{"script":"exit 3 | show a; show $?","table":[{"name":"show","answers":[{}]}]}"#,
        br#"{"calls":[{"argv":["show","a"],"env":{},"input":null},{"argv":["show","0"],"env":{},"input":null}],"end":"ended","err":"","files":{},"out":"","status":0,"turns":0}
"#,
    ),
    // out of a redirection
    (
        br#"{"script":"{ echo a; exit 2; } > f"}"#,
        br#"{"calls":[],"end":"ended","err":"","files":{"f":"a\n"},"out":"","status":2,"turns":0}
"#,
    ),
    // `exit` in a test, and behind `&&`
    (
        br#"{"script":"false && exit 1; if (exit 1); then show a; elif exit 4; then show b; fi","table":[{"name":"show","answers":[{}]}]}"#,
        br#"{"calls":[],"end":"ended","err":"","files":{},"out":"","status":4,"turns":0}
"#,
    ),
    // the status of a substitution counts for `exit`
    (
        br#"{"script":"true; exit $(three)","table":[{"name":"three","answers":[{"status":3}]}]}"#,
        br#"{"calls":[{"argv":["three"],"env":{},"input":null}],"end":"ended","err":"","files":{},"out":"","status":3,"turns":0}
"#,
    ),
    // jumps in a subshell's own loop and function
    (
        br#"{"script":"f() { (for i in 1 2; do break; done; show a); }; (f; g() { return 4; }; g; show $?)","table":[{"name":"show","answers":[{}]}]}"#,
        br#"{"calls":[{"argv":["show","a"],"env":{},"input":null},{"argv":["show","4"],"env":{},"input":null}],"end":"ended","err":"","files":{},"out":"","status":0,"turns":3}
"#,
    ),
];
