//! Simple commands, pipelines, lists and compound commands (XCU 2.9), and the status behind each (2.8.2).

pub const ROWS: [(&[u8], &[u8]); 35] = [
    // the status of an external command
    (
        br#"{"script":"show $?; three; show $?; gone; show $?","table":[{"name":"show","answers":[{}]},{"name":"three","answers":[{"status":3}]}]}"#,
        br#"{"calls":[{"argv":["show","0"],"env":{},"input":null},{"argv":["three"],"env":{},"input":null},{"argv":["show","3"],"env":{},"input":null},{"argv":["gone"],"env":{},"input":null},{"argv":["show","127"],"env":{},"input":null}],"end":"ended","err":"","files":{},"out":"","status":0,"turns":0}
"#,
    ),
    // the run's own status is the last one
    (
        br#"{"script":"show; three","table":[{"name":"show","answers":[{}]},{"name":"three","answers":[{"status":3}]}]}"#,
        br#"{"calls":[{"argv":["show"],"env":{},"input":null},{"argv":["three"],"env":{},"input":null}],"end":"ended","err":"","files":{},"out":"","status":3,"turns":0}
"#,
    ),
    // no commands
    (
        br##"{"script":"# nothing\n\n"}"##,
        br#"{"calls":[],"end":"ended","err":"","files":{},"out":"","status":0,"turns":0}
"#,
    ),
    // the status of assignments
    (
        br#"{"script":"false; x=1; show $?; x=$(three); show $?; x=$(three) y=$(true); show $?","table":[{"name":"show","answers":[{}]},{"name":"three","answers":[{"status":3}]}]}"#,
        br#"{"calls":[{"argv":["show","0"],"env":{},"input":null},{"argv":["three"],"env":{},"input":null},{"argv":["show","3"],"env":{},"input":null},{"argv":["three"],"env":{},"input":null},{"argv":["show","0"],"env":{},"input":null}],"end":"ended","err":"","files":{},"out":"","status":0,"turns":0}
"#,
    ),
    // the status of a command whose words give no field
    (
        br#"{"script":"false; $u; show $?; $(three); show $?; x=1 $u; show $x $?","table":[{"name":"show","answers":[{}]},{"name":"three","answers":[{"status":3}]}]}"#,
        br#"{"calls":[{"argv":["show","0"],"env":{},"input":null},{"argv":["three"],"env":{},"input":null},{"argv":["show","3"],"env":{},"input":null},{"argv":["show","1","0"],"env":{},"input":null}],"end":"ended","err":"","files":{},"out":"","status":0,"turns":0}
"#,
    ),
    // the status of redirections alone, and of a definition
    (
        br#"{"script":"false; > f; show $?; false; f() { false; }; show $?","table":[{"name":"show","answers":[{}]}]}"#,
        br#"{"calls":[{"argv":["show","0"],"env":{},"input":null},{"argv":["show","0"],"env":{},"input":null}],"end":"ended","err":"","files":{"f":""},"out":"","status":0,"turns":0}
"#,
    ),
    // the status of `if`
    (
        br#"{"script":"if false; then :; fi; show $?; if true; then three; fi; show $?; if false; then :; elif false; then :; else three; fi; show $?","table":[{"name":"show","answers":[{}]},{"name":"three","answers":[{"status":3}]}]}"#,
        br#"{"calls":[{"argv":["show","0"],"env":{},"input":null},{"argv":["three"],"env":{},"input":null},{"argv":["show","3"],"env":{},"input":null},{"argv":["three"],"env":{},"input":null},{"argv":["show","3"],"env":{},"input":null}],"end":"ended","err":"","files":{},"out":"","status":0,"turns":0}
"#,
    ),
    // branches of `if`
    (
        br#"{"script":"if false; then show 1; elif true; then show 2; else show 3; fi; if false; true; then show 4; else show 5; fi","table":[{"name":"show","answers":[{}]}]}"#,
        br#"{"calls":[{"argv":["show","2"],"env":{},"input":null},{"argv":["show","4"],"env":{},"input":null}],"end":"ended","err":"","files":{},"out":"","status":0,"turns":0}
"#,
    ),
    // the status of `while` and `until`
    (
        br#"{"script":"false; while false; do :; done; show $?; x=1; while [ $x = 1 ]; do x=2; three; done; show $?; until true; do :; done; show $?","table":[{"name":"show","answers":[{}]},{"name":"three","answers":[{"status":3}]}]}"#,
        br#"{"calls":[{"argv":["show","0"],"env":{},"input":null},{"argv":["three"],"env":{},"input":null},{"argv":["show","3"],"env":{},"input":null},{"argv":["show","0"],"env":{},"input":null}],"end":"ended","err":"","files":{},"out":"","status":0,"turns":1}
"#,
    ),
    // the status of `for`
    (
        br#"{"script":"false; for i in; do :; done; show $?; for i in 1; do three; done; show $?","table":[{"name":"show","answers":[{}]},{"name":"three","answers":[{"status":3}]}]}"#,
        br#"{"calls":[{"argv":["show","0"],"env":{},"input":null},{"argv":["three"],"env":{},"input":null},{"argv":["show","3"],"env":{},"input":null}],"end":"ended","err":"","files":{},"out":"","status":0,"turns":1}
"#,
    ),
    // `for` over the parameters
    (
        br#"{"script":"for i do show $i; done; for i; do show $i; done; show $i","args":["script","a","b"],"table":[{"name":"show","answers":[{}]}]}"#,
        br#"{"calls":[{"argv":["show","a"],"env":{},"input":null},{"argv":["show","b"],"env":{},"input":null},{"argv":["show","a"],"env":{},"input":null},{"argv":["show","b"],"env":{},"input":null},{"argv":["show","b"],"env":{},"input":null}],"end":"ended","err":"","files":{},"out":"","status":0,"turns":4}
"#,
    ),
    // the status of `case`
    (
        br#"{"script":"three; case a in b) ;; esac; show $?; three; case a in a) ;; esac; show $?; case a in a) three ;; esac; show $?","table":[{"name":"show","answers":[{}]},{"name":"three","answers":[{"status":3}]}]}"#,
        br#"{"calls":[{"argv":["three"],"env":{},"input":null},{"argv":["show","0"],"env":{},"input":null},{"argv":["three"],"env":{},"input":null},{"argv":["show","0"],"env":{},"input":null},{"argv":["three"],"env":{},"input":null},{"argv":["show","3"],"env":{},"input":null}],"end":"ended","err":"","files":{},"out":"","status":0,"turns":0}
"#,
    ),
    // a body sees the status of what was expanded for it
    (
        br#"{"script":"case $(three) in '') show $? ;; esac; for i in a$(three); do show $i $?; done","table":[{"name":"show","answers":[{}]},{"name":"three","answers":[{"status":3}]}]}"#,
        br#"{"calls":[{"argv":["three"],"env":{},"input":null},{"argv":["show","3"],"env":{},"input":null},{"argv":["three"],"env":{},"input":null},{"argv":["show","a","3"],"env":{},"input":null}],"end":"ended","err":"","files":{},"out":"","status":0,"turns":1}
"#,
    ),
    // the opposite of a status
    (
        br#"{"script":"! true; show $?; ! three; show $?; ! (exit 2); show $?","table":[{"name":"show","answers":[{}]},{"name":"three","answers":[{"status":3}]}]}"#,
        br#"{"calls":[{"argv":["show","1"],"env":{},"input":null},{"argv":["three"],"env":{},"input":null},{"argv":["show","0"],"env":{},"input":null},{"argv":["show","0"],"env":{},"input":null}],"end":"ended","err":"","files":{},"out":"","status":0,"turns":0}
"#,
    ),
    // lists by && and ||
    (
        br#"{"script":"true && show a || show b; false && show c || show d; false || three && show e; show $?","table":[{"name":"show","answers":[{}]},{"name":"three","answers":[{"status":3}]}]}"#,
        br#"{"calls":[{"argv":["show","a"],"env":{},"input":null},{"argv":["show","d"],"env":{},"input":null},{"argv":["three"],"env":{},"input":null},{"argv":["show","3"],"env":{},"input":null}],"end":"ended","err":"","files":{},"out":"","status":0,"turns":0}
"#,
    ),
    // the status of a pipeline
    (
        br#"{"script":"three | true; show $?; true | three; show $?; ! true | three; show $?","table":[{"name":"show","answers":[{}]},{"name":"three","answers":[{"status":3}]}]}"#,
        br#"{"calls":[{"argv":["three"],"env":{},"input":null},{"argv":["show","0"],"env":{},"input":null},{"argv":["three"],"env":{},"input":null},{"argv":["show","3"],"env":{},"input":null},{"argv":["three"],"env":{},"input":null},{"argv":["show","0"],"env":{},"input":null}],"end":"ended","err":"","files":{},"out":"","status":0,"turns":0}
"#,
    ),
    // the status of groups and subshells
    (
        br#"{"script":"{ three; }; show $?; (three); show $?; { :; }; show $?","table":[{"name":"show","answers":[{}]},{"name":"three","answers":[{"status":3}]}]}"#,
        br#"{"calls":[{"argv":["three"],"env":{},"input":null},{"argv":["show","3"],"env":{},"input":null},{"argv":["three"],"env":{},"input":null},{"argv":["show","3"],"env":{},"input":null},{"argv":["show","0"],"env":{},"input":null}],"end":"ended","err":"","files":{},"out":"","status":0,"turns":0}
"#,
    ),
    // a subshell and a substitution begin with the status before them
    (
        br#"{"script":"three; (show $?); false; show \"$(echo $?)\"","table":[{"name":"show","answers":[{}]},{"name":"three","answers":[{"status":3}]}]}"#,
        br#"{"calls":[{"argv":["three"],"env":{},"input":null},{"argv":["show","3"],"env":{},"input":null},{"argv":["show","1"],"env":{},"input":null}],"end":"ended","err":"","files":{},"out":"","status":0,"turns":0}
"#,
    ),
    // assignments before a command are in its environment alone
    (
        br#"{"script":"x=1 show a; show \"${x-none}\"; y=0; y=1 show \"$y\"; show \"$y\"","table":[{"name":"show","answers":[{}]}]}"#,
        br#"{"calls":[{"argv":["show","a"],"env":{"x":"1"},"input":null},{"argv":["show","none"],"env":{},"input":null},{"argv":["show","0"],"env":{"y":"1"},"input":null},{"argv":["show","0"],"env":{},"input":null}],"end":"ended","err":"","files":{},"out":"","status":0,"turns":0}
"#,
    ),
    // several assignments, and the environment sorted by name
    (
        br#"{"script":"b=1 a=2 _c=3 B=$u show; a=0 b=$a; show $b","table":[{"name":"show","answers":[{}]}]}"#,
        br#"{"calls":[{"argv":["show"],"env":{"B":"","_c":"3","a":"2","b":"1"},"input":null},{"argv":["show","0"],"env":{},"input":null}],"end":"ended","err":"","files":{},"out":"","status":0,"turns":0}
"#,
    ),
    // assignments before a built-in are gone behind it
    (
        br#"{"script":"x=1 true; show \"${x-none}\"; x=0; x=2 [ a ]; show \"$x\"","table":[{"name":"show","answers":[{}]}]}"#,
        br#"{"calls":[{"argv":["show","none"],"env":{},"input":null},{"argv":["show","0"],"env":{},"input":null}],"end":"ended","err":"","files":{},"out":"","status":0,"turns":0}
"#,
    ),
    // words first, then redirections, then values
    (
        br#"{"script":"x=$(n v) n w$(n w) > $(n r)","table":[{"argv":["n","wo"],"answers":[{"out":"w"}]},{"name":"n","answers":[{"out":"o\n"}]}]}"#,
        br#"{"calls":[{"argv":["n","w"],"env":{},"input":null},{"argv":["n","r"],"env":{},"input":null},{"argv":["n","v"],"env":{},"input":null},{"argv":["n","wo"],"env":{"x":"o"},"input":null}],"end":"ended","err":"","files":{"o":"w"},"out":"","status":0,"turns":0}
"#,
    ),
    // names of commands that are computed
    (
        br#"{"script":"c=show; $c a; 'sh'ow b; x=echo; $x hi; c='show a'; $c b; $u show c","table":[{"name":"show","answers":[{}]}]}"#,
        br#"{"calls":[{"argv":["show","a"],"env":{},"input":null},{"argv":["show","b"],"env":{},"input":null},{"argv":["show","a","b"],"env":{},"input":null},{"argv":["show","c"],"env":{},"input":null}],"end":"ended","err":"","files":{},"out":"hi\n","status":0,"turns":0}
"#,
    ),
    // stages one behind the other
    (
        br#"{"script":"printf 'a\\nb' | cat | cat 2","table":[{"argv":["cat"],"input":true,"answers":[{"out":"A"}]},{"name":"cat","input":true,"answers":[{"out":"B"}]}]}"#,
        br#"{"calls":[{"argv":["cat"],"env":{},"input":"a\nb"},{"argv":["cat","2"],"env":{},"input":"A"}],"end":"ended","err":"","files":{},"out":"B","status":0,"turns":0}
"#,
    ),
    // a loop at the end of a pipeline
    (
        br#"{"script":"printf 'a\\nb\\n' | while read -r x; do show \"$x\"; done","table":[{"name":"show","answers":[{}]}]}"#,
        br#"{"calls":[{"argv":["show","a"],"env":{},"input":null},{"argv":["show","b"],"env":{},"input":null}],"end":"ended","err":"","files":{},"out":"","status":0,"turns":2}
"#,
    ),
    // a loop at the beginning
    (
        br#"{"script":"for i in 1 2; do echo $i; done | cat","table":[{"name":"cat","input":true,"answers":[{}]}]}"#,
        br#"{"calls":[{"argv":["cat"],"env":{},"input":"1\n2\n"}],"end":"ended","err":"","files":{},"out":"","status":0,"turns":2}
"#,
    ),
    // the commands of a test
    (
        br#"{"script":"while show a; false; do :; done; until show b; true; do :; done","table":[{"name":"show","answers":[{}]}]}"#,
        br#"{"calls":[{"argv":["show","a"],"env":{},"input":null},{"argv":["show","b"],"env":{},"input":null}],"end":"ended","err":"","files":{},"out":"","status":0,"turns":0}
"#,
    ),
    // `until`
    (
        br#"{"script":"x=; until [ \"$x\" = aa ]; do x=a$x; done; show $x","table":[{"name":"show","answers":[{}]}]}"#,
        br#"{"calls":[{"argv":["show","aa"],"env":{},"input":null}],"end":"ended","err":"","files":{},"out":"","status":0,"turns":2}
"#,
    ),
    // loops in one another
    (
        br#"{"script":"for i in 1 2; do for j in a b; do show $i$j; done; done","table":[{"name":"show","answers":[{}]}]}"#,
        br#"{"calls":[{"argv":["show","1a"],"env":{},"input":null},{"argv":["show","1b"],"env":{},"input":null},{"argv":["show","2a"],"env":{},"input":null},{"argv":["show","2b"],"env":{},"input":null}],"end":"ended","err":"","files":{},"out":"","status":0,"turns":6}
"#,
    ),
    // the first row that fits answers
    (
        br#"{"script":"cat; show $?; cat; show $?; cat x; show $?","stdin":"in","table":[{"argv":["cat","x"],"answers":[{"status":6}]},{"name":"cat","input":"in","answers":[{"status":4}]},{"name":"cat","answers":[{"status":5}]},{"name":"show","answers":[{}]}]}"#,
        br#"{"calls":[{"argv":["cat"],"env":{},"input":"in"},{"argv":["show","4"],"env":{},"input":null},{"argv":["cat"],"env":{},"input":null},{"argv":["show","5"],"env":{},"input":null},{"argv":["cat","x"],"env":{},"input":null},{"argv":["show","6"],"env":{},"input":null}],"end":"ended","err":"","files":{},"out":"","status":0,"turns":0}
"#,
    ),
    // answers come in turn, and the last one repeats
    (
        br#"{"script":"x=$(n); y=$(n); z=$(n); show $x $y $z","table":[{"name":"show","answers":[{}]},{"name":"n","answers":[{"out":"1\n"},{"out":"2\n"}]}]}"#,
        br#"{"calls":[{"argv":["n"],"env":{},"input":null},{"argv":["n"],"env":{},"input":null},{"argv":["n"],"env":{},"input":null},{"argv":["show","1","2","2"],"env":{},"input":null}],"end":"ended","err":"","files":{},"out":"","status":0,"turns":0}
"#,
    ),
    // the environment of the job
    (
        br#"{"script":"show; A=2; show; B=1; show","env":{"A":"1"},"table":[{"name":"show","answers":[{}]}]}"#,
        br#"{"calls":[{"argv":["show"],"env":{"A":"1"},"input":null},{"argv":["show"],"env":{"A":"2"},"input":null},{"argv":["show"],"env":{"A":"2"},"input":null}],"end":"ended","err":"","files":{},"out":"","status":0,"turns":0}
"#,
    ),
    // comments, newlines and joins
    (
        br#"{"script":"show a # b\n\n# c\nshow \\\n d && # e\n show f\n","table":[{"name":"show","answers":[{}]}]}"#,
        br#"{"calls":[{"argv":["show","a"],"env":{},"input":null},{"argv":["show","d"],"env":{},"input":null},{"argv":["show","f"],"env":{},"input":null}],"end":"ended","err":"","files":{},"out":"","status":0,"turns":0}
"#,
    ),
    // `:` expands its words
    (
        br#"{"script":": a $(show x) ${y=2}; show $y $?","table":[{"name":"show","answers":[{}]}]}"#,
        br#"{"calls":[{"argv":["show","x"],"env":{},"input":null},{"argv":["show","2","0"],"env":{},"input":null}],"end":"ended","err":"","files":{},"out":"","status":0,"turns":0}
"#,
    ),
    // a command's output in a substitution, and its errors
    (
        br#"{"script":"x=$(show a); printf %s \"$x\"","table":[{"name":"show","answers":[{"out":"o","err":"e"}]}]}"#,
        br#"{"calls":[{"argv":["show","a"],"env":{},"input":null}],"end":"ended","err":"e","files":{},"out":"o","status":0,"turns":0}
"#,
    ),
];
