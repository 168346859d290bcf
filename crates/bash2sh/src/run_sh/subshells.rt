//! Subshell environments (XCU 2.12).

pub const ROWS: [(&[u8], &[u8]); 20] = [
    // variables
    (
        br#"{"script":"x=1; (x=2; show $x; unset x; show \"${x-none}\"); show $x","table":[{"name":"show","answers":[{}]}]}"#,
        br#"{"calls":[{"argv":["show","2"],"env":{},"input":null},{"argv":["show","none"],"env":{},"input":null},{"argv":["show","1"],"env":{},"input":null}],"end":"ended","err":"","files":{},"out":"","status":0,"turns":0}
"#,
    ),
    // marks of exported variables
    (
        br#"{"script":"x=1; (export x; show a); show b; export x; (unset x); show c","table":[{"name":"show","answers":[{}]}]}"#,
        br#"{"calls":[{"argv":["show","a"],"env":{"x":"1"},"input":null},{"argv":["show","b"],"env":{},"input":null},{"argv":["show","c"],"env":{"x":"1"},"input":null}],"end":"ended","err":"","files":{},"out":"","status":0,"turns":0}
"#,
    ),
    // functions
    (
        br#"{"script":"(f() { show a; }; f); f; g() { show 1; }; (g() { show 2; }; g); g","table":[{"name":"show","answers":[{}]}]}"#,
        br#"{"calls":[{"argv":["show","a"],"env":{},"input":null},{"argv":["f"],"env":{},"input":null},{"argv":["show","2"],"env":{},"input":null},{"argv":["show","1"],"env":{},"input":null}],"end":"ended","err":"","files":{},"out":"","status":0,"turns":3}
"#,
    ),
    // parameters
    (
        br#"{"script":"(set -- b c; show \"$@\"; shift; show \"$@\"); show \"$@\"","args":["script","a"],"table":[{"name":"show","answers":[{}]}]}"#,
        br#"{"calls":[{"argv":["show","b","c"],"env":{},"input":null},{"argv":["show","c"],"env":{},"input":null},{"argv":["show","a"],"env":{},"input":null}],"end":"ended","err":"","files":{},"out":"","status":0,"turns":0}
"#,
    ),
    // a substitution is a subshell
    (
        br#"{"script":"x=1; y=$(x=2; printf $x); show $x $y","table":[{"name":"show","answers":[{}]}]}"#,
        br#"{"calls":[{"argv":["show","1","2"],"env":{},"input":null}],"end":"ended","err":"","files":{},"out":"","status":0,"turns":0}
"#,
    ),
    // assignments by expansions in a substitution
    (
        br#"{"script":"x=1; show \"$(printf $((x=5)))\" $x \"$(printf ${y=a})\" \"${y-none}\"","table":[{"name":"show","answers":[{}]}]}"#,
        br#"{"calls":[{"argv":["show","5","1","a","none"],"env":{},"input":null}],"end":"ended","err":"","files":{},"out":"","status":0,"turns":0}
"#,
    ),
    // the first stages of a pipeline
    (
        br#"{"script":"x=1; x=2 | show $x; { x=3; echo $x; } | cat; show $x","table":[{"name":"show","answers":[{}]},{"name":"cat","input":true,"answers":[{}]}]}"#,
        br#"{"calls":[{"argv":["show","1"],"env":{},"input":null},{"argv":["cat"],"env":{},"input":"3\n"},{"argv":["show","1"],"env":{},"input":null}],"end":"ended","err":"","files":{},"out":"","status":0,"turns":0}
"#,
    ),
    // a stage in the middle
    (
        br#"{"script":"printf 'a\\n' | { read -r x; echo $x$x; } | { read -r y; show \"$y\" \"${x-none}\"; }","table":[{"name":"show","answers":[{}]}]}"#,
        br#"{"calls":[{"argv":["show","aa","none"],"env":{},"input":null}],"end":"ended","err":"","files":{},"out":"","status":0,"turns":0}
"#,
    ),
    // offsets are shared
    (
        br#"{"script":"(read -r x; show $x); read -r y; show $y; z=$(read -r w; echo $w); show $z","stdin":"l1\nl2\nl3\n","table":[{"name":"show","answers":[{}]}]}"#,
        br#"{"calls":[{"argv":["show","l1"],"env":{},"input":null},{"argv":["show","l2"],"env":{},"input":null},{"argv":["show","l3"],"env":{},"input":null}],"end":"ended","err":"","files":{},"out":"","status":0,"turns":0}
"#,
    ),
    // files are shared
    (
        br#"{"script":"(echo a > f); read -r x < f; show $x","table":[{"name":"show","answers":[{}]}]}"#,
        br#"{"calls":[{"argv":["show","a"],"env":{},"input":null}],"end":"ended","err":"","files":{"f":"a\n"},"out":"","status":0,"turns":0}
"#,
    ),
    // outputs are shared
    (
        br#"{"script":"(echo a; echo b >&2); x=$(echo c >&2; echo d); echo $x"}"#,
        br#"{"calls":[],"end":"ended","err":"b\nc\n","files":{},"out":"a\nd\n","status":0,"turns":0}
"#,
    ),
    // descriptors of a subshell
    (
        br#"{"script":"(echo a; (echo b) > g; echo c) > f; echo d"}"#,
        br#"{"calls":[],"end":"ended","err":"","files":{"f":"a\nc\n","g":"b\n"},"out":"d\n","status":0,"turns":0}
"#,
    ),
    // subshells in one another
    (
        br#"{"script":"x=1; (x=2; (x=3; show $x); show $x); show $x","table":[{"name":"show","answers":[{}]}]}"#,
        br#"{"calls":[{"argv":["show","3"],"env":{},"input":null},{"argv":["show","2"],"env":{},"input":null},{"argv":["show","1"],"env":{},"input":null}],"end":"ended","err":"","files":{},"out":"","status":0,"turns":0}
"#,
    ),
    // IFS
    (
        br#"{"script":"x=a:b; (IFS=:; show $x); show $x","table":[{"name":"show","answers":[{}]}]}"#,
        br#"{"calls":[{"argv":["show","a","b"],"env":{},"input":null},{"argv":["show","a:b"],"env":{},"input":null}],"end":"ended","err":"","files":{},"out":"","status":0,"turns":0}
"#,
    ),
    // turns that a subshell took are used
    (
        br#"{"script":"(for i in 1 2; do :; done); for i in 3; do x=$(for j in 4; do :; done); done; show $i","table":[{"name":"show","answers":[{}]}]}"#,
        br#"{"calls":[{"argv":["show","3"],"env":{},"input":null}],"end":"ended","err":"","files":{},"out":"","status":0,"turns":4}
"#,
    ),
    // a group is none
    (
        br#"{"script":"{ x=2; set -- b; }; show $x $1","args":["script","a"],"table":[{"name":"show","answers":[{}]}]}"#,
        br#"{"calls":[{"argv":["show","2","b"],"env":{},"input":null}],"end":"ended","err":"","files":{},"out":"","status":0,"turns":0}
"#,
    ),
    // nor is a loop with redirections
    (
        br#"{"script":"while read -r x; do y=$x; done < f; show \"$y\" \"$x\"","files":{"f":"a\nb\nc"},"table":[{"name":"show","answers":[{}]}]}"#,
        br#"{"calls":[{"argv":["show","b","c"],"env":{},"input":null}],"end":"ended","err":"","files":{"f":"a\nb\nc"},"out":"","status":0,"turns":2}
"#,
    ),
    // a subshell's answers of the table go on
    (
        br#"{"script":"x=$(n); (y=$(n); show $y); show $x $(n)","table":[{"name":"show","answers":[{}]},{"name":"n","answers":[{"out":"1"},{"out":"2"},{"out":"3"}]}]}"#,
        br#"{"calls":[{"argv":["n"],"env":{},"input":null},{"argv":["n"],"env":{},"input":null},{"argv":["show","2"],"env":{},"input":null},{"argv":["n"],"env":{},"input":null},{"argv":["show","1","3"],"env":{},"input":null}],"end":"ended","err":"","files":{},"out":"","status":0,"turns":0}
"#,
    ),
    // the input of a subshell
    (
        br#"{"script":"printf 'a\\nb\\n' | (read -r x; show $x; cat); (cat)","stdin":"in","table":[{"name":"show","answers":[{}]},{"name":"cat","input":true,"answers":[{}]}]}"#,
        br#"{"calls":[{"argv":["show","a"],"env":{},"input":null},{"argv":["cat"],"env":{},"input":"b\n"},{"argv":["cat"],"env":{},"input":"in"}],"end":"ended","err":"","files":{},"out":"","status":0,"turns":0}
"#,
    ),
    // an exported variable in a substitution
    (
        br#"{"script":"show \"$(export x=1; n)\"","table":[{"name":"show","answers":[{}]},{"name":"n","answers":[{"out":"o"}]}]}"#,
        br#"{"calls":[{"argv":["n"],"env":{"x":"1"},"input":null},{"argv":["show","o"],"env":{},"input":null}],"end":"ended","err":"","files":{},"out":"","status":0,"turns":0}
"#,
    ),
];
