//! Patterns (XCU 2.13), in `case` and with names of files (2.6.6).

pub const ROWS: [(&[u8], &[u8]); 28] = [
    // any byte, and any text
    (
        br#"{"script":"case abc in a?c) show 1 ;; esac; case abc in a*) show 2 ;; esac; case abc in b* | ab) show 3 ;; *) show 4 ;; esac","table":[{"name":"show","answers":[{}]}]}"#,
        br#"{"calls":[{"argv":["show","1"],"env":{},"input":null},{"argv":["show","2"],"env":{},"input":null},{"argv":["show","4"],"env":{},"input":null}],"end":"ended","err":"","files":{},"out":"","status":0,"turns":0}
"#,
    ),
    // brackets
    (
        br#"{"script":"for i in a 5 - ]; do case $i in [a-c]) show l ;; [!0-9]) show n ;; *) show d ;; esac; done","table":[{"name":"show","answers":[{}]}]}"#,
        br#"{"calls":[{"argv":["show","l"],"env":{},"input":null},{"argv":["show","d"],"env":{},"input":null},{"argv":["show","n"],"env":{},"input":null},{"argv":["show","n"],"env":{},"input":null}],"end":"ended","err":"","files":{},"out":"","status":0,"turns":4}
"#,
    ),
    // a complement by `^`
    (
        br#"{"script":"case b in [^a]) show 1 ;; *) show 2 ;; esac","table":[{"name":"show","answers":[{}]}]}"#,
        br#"{"calls":[{"argv":["show","1"],"env":{},"input":null}],"end":"ended","err":"","files":{},"out":"","status":0,"turns":0}
"#,
    ),
    // classes
    (
        br#"{"script":"case A1_ in [[:upper:]][[:digit:]][![:alnum:]]) show 1 ;; *) show 2 ;; esac","table":[{"name":"show","answers":[{}]}]}"#,
        br#"{"calls":[{"argv":["show","1"],"env":{},"input":null}],"end":"ended","err":"","files":{},"out":"","status":0,"turns":0}
"#,
    ),
    // members that stand at the ends of brackets, and a bracket that isn't closed
    (
        br#"{"script":"case ] in []]) show 1 ;; esac; case - in [a-]) show 2 ;; esac; case [a in [a) show 3 ;; esac","table":[{"name":"show","answers":[{}]}]}"#,
        br#"{"calls":[{"argv":["show","1"],"env":{},"input":null},{"argv":["show","2"],"env":{},"input":null},{"argv":["show","3"],"env":{},"input":null}],"end":"ended","err":"","files":{},"out":"","status":0,"turns":0}
"#,
    ),
    // a quoted byte is itself
    (
        br#"{"script":"x='*'; case abc in \"$x\") show 1 ;; '*') show 2 ;; \\*) show 3 ;; $x) show 4 ;; esac","table":[{"name":"show","answers":[{}]}]}"#,
        br#"{"calls":[{"argv":["show","4"],"env":{},"input":null}],"end":"ended","err":"","files":{},"out":"","status":0,"turns":0}
"#,
    ),
    // a quoted byte in brackets is a member
    (
        br#"{"script":"for i in - m; do case $i in [a'-'z]) show 1 ;; *) show 2 ;; esac; done","table":[{"name":"show","answers":[{}]}]}"#,
        br#"{"calls":[{"argv":["show","1"],"env":{},"input":null},{"argv":["show","2"],"env":{},"input":null}],"end":"ended","err":"","files":{},"out":"","status":0,"turns":2}
"#,
    ),
    // the first pattern that matches counts
    (
        br#"{"script":"case b in a | b) show 1 ;; b) show 2 ;; esac","table":[{"name":"show","answers":[{}]}]}"#,
        br#"{"calls":[{"argv":["show","1"],"env":{},"input":null}],"end":"ended","err":"","files":{},"out":"","status":0,"turns":0}
"#,
    ),
    // patterns are expanded in order, up to the one that matches
    (
        br#"{"script":"case a in $(show x)) ;; $(show y) | a) show b ;; $(show z)) ;; esac","table":[{"name":"show","answers":[{}]}]}"#,
        br#"{"calls":[{"argv":["show","x"],"env":{},"input":null},{"argv":["show","y"],"env":{},"input":null},{"argv":["show","b"],"env":{},"input":null}],"end":"ended","err":"","files":{},"out":"","status":0,"turns":0}
"#,
    ),
    // empty subjects and patterns
    (
        br#"{"script":"case '' in a) ;; '') show 1 ;; esac; case $u in *) show 2 ;; esac; case a in $u) show 3 ;; esac","table":[{"name":"show","answers":[{}]}]}"#,
        br#"{"calls":[{"argv":["show","1"],"env":{},"input":null},{"argv":["show","2"],"env":{},"input":null}],"end":"ended","err":"","files":{},"out":"","status":0,"turns":0}
"#,
    ),
    // brackets in prefixes and suffixes
    (
        br#"{"script":"x=aabbcc; show \"${x##[ab]*b}\" \"${x%%[bc]*}\" \"${x#?}\"","table":[{"name":"show","answers":[{}]}]}"#,
        br#"{"calls":[{"argv":["show","cc","aa","abbcc"],"env":{},"input":null}],"end":"ended","err":"","files":{},"out":"","status":0,"turns":0}
"#,
    ),
    // a pattern of a pattern
    (
        br#"{"script":"p='a?'; for i in ab a?; do case $i in \"$p\") show q$i ;; $p) show u$i ;; esac; done","table":[{"name":"show","answers":[{}]}]}"#,
        br#"{"calls":[{"argv":["show","uab"],"env":{},"input":null},{"argv":["show","qa?"],"env":{},"input":null}],"end":"ended","err":"","files":{},"out":"","status":0,"turns":2}
"#,
    ),
    // names of files
    (
        br#"{"script":"show d/*","files":{"d/a":"","d/.b":""},"table":[{"name":"show","answers":[{}]}]}"#,
        br#"{"calls":[{"argv":["show","d/a"],"env":{},"input":null}],"end":"ended","err":"","files":{"d/.b":"","d/a":""},"out":"","status":0,"turns":0}
"#,
    ),
    // names are sorted, and a leading dot is matched only by itself
    (
        br#"{"script":"show *; show .*","files":{"b":"","a":"",".c":"","d/x":""},"table":[{"name":"show","answers":[{}]}]}"#,
        br#"{"calls":[{"argv":["show","a","b","d"],"env":{},"input":null},{"argv":["show",".c"],"env":{},"input":null}],"end":"ended","err":"","files":{".c":"","a":"","b":"","d/x":""},"out":"","status":0,"turns":0}
"#,
    ),
    // a field without a match stays
    (
        br#"{"script":"show z* \"a*\" a*","files":{"a1":""},"table":[{"name":"show","answers":[{}]}]}"#,
        br#"{"calls":[{"argv":["show","z*","a*","a1"],"env":{},"input":null}],"end":"ended","err":"","files":{"a1":""},"out":"","status":0,"turns":0}
"#,
    ),
    // folders
    (
        br#"{"script":"show */; show */*","files":{"a/x":"","b":"","c/y":""},"table":[{"name":"show","answers":[{}]}]}"#,
        br#"{"calls":[{"argv":["show","a/","c/"],"env":{},"input":null},{"argv":["show","a/x","c/y"],"env":{},"input":null}],"end":"ended","err":"","files":{"a/x":"","b":"","c/y":""},"out":"","status":0,"turns":0}
"#,
    ),
    // a dot and an empty component are kept
    (
        br#"{"script":"show ./d/* d//* ./*","files":{"d/a":""},"table":[{"name":"show","answers":[{}]}]}"#,
        br#"{"calls":[{"argv":["show","./d/a","d//a","./d"],"env":{},"input":null}],"end":"ended","err":"","files":{"d/a":""},"out":"","status":0,"turns":0}
"#,
    ),
    // a pattern that comes from an expansion
    (
        br#"{"script":"p='*.c'; show $p \"$p\"","files":{"a.c":"","b.c":""},"table":[{"name":"show","answers":[{}]}]}"#,
        br#"{"calls":[{"argv":["show","a.c","b.c","*.c"],"env":{},"input":null}],"end":"ended","err":"","files":{"a.c":"","b.c":""},"out":"","status":0,"turns":0}
"#,
    ),
    // assignments have no names of files
    (
        br#"{"script":"x=*; show \"$x\"; show $x","files":{"a":""},"table":[{"name":"show","answers":[{}]}]}"#,
        br#"{"calls":[{"argv":["show","*"],"env":{},"input":null},{"argv":["show","a"],"env":{},"input":null}],"end":"ended","err":"","files":{"a":""},"out":"","status":0,"turns":0}
"#,
    ),
    // a list of `for` has
    (
        br#"{"script":"for f in *.t; do show \"$f\"; done","files":{"b.t":"","a.t":"","c":""},"table":[{"name":"show","answers":[{}]}]}"#,
        br#"{"calls":[{"argv":["show","a.t"],"env":{},"input":null},{"argv":["show","b.t"],"env":{},"input":null}],"end":"ended","err":"","files":{"a.t":"","b.t":"","c":""},"out":"","status":0,"turns":2}
"#,
    ),
    // brackets and classes
    (
        br#"{"script":"show [ab]1 [!a]? [[:alpha:]]2","files":{"a1":"","b1":"","c2":""},"table":[{"name":"show","answers":[{}]}]}"#,
        br#"{"calls":[{"argv":["show","a1","b1","b1","c2","c2"],"env":{},"input":null}],"end":"ended","err":"","files":{"a1":"","b1":"","c2":""},"out":"","status":0,"turns":0}
"#,
    ),
    // a quoted bracket begins none
    (
        br#"{"script":"show '['a] [a] \\[*","files":{"[a]":"","a":""},"table":[{"name":"show","answers":[{}]}]}"#,
        br#"{"calls":[{"argv":["show","[a]","a","[a]"],"env":{},"input":null}],"end":"ended","err":"","files":{"[a]":"","a":""},"out":"","status":0,"turns":0}
"#,
    ),
    // a dot in front of each component
    (
        br#"{"script":"show */* .a/* .[a]/*","files":{".a/x":"","b/y":""},"table":[{"name":"show","answers":[{}]}]}"#,
        br#"{"calls":[{"argv":["show","b/y",".a/x",".a/x"],"env":{},"input":null}],"end":"ended","err":"","files":{".a/x":"","b/y":""},"out":"","status":0,"turns":0}
"#,
    ),
    // a quoted star beside a star
    (
        br#"{"script":"show a\\** a\"*\"","files":{"a*":"","ab":""},"table":[{"name":"show","answers":[{}]}]}"#,
        br#"{"calls":[{"argv":["show","a*","a*"],"env":{},"input":null}],"end":"ended","err":"","files":{"a*":"","ab":""},"out":"","status":0,"turns":0}
"#,
    ),
    // fields keep their order
    (
        br#"{"script":"x='b* a*'; show $x","files":{"a1":"","b2":"","b1":""},"table":[{"name":"show","answers":[{}]}]}"#,
        br#"{"calls":[{"argv":["show","b1","b2","a1"],"env":{},"input":null}],"end":"ended","err":"","files":{"a1":"","b1":"","b2":""},"out":"","status":0,"turns":0}
"#,
    ),
    // a `case` has no names of files
    (
        br#"{"script":"case * in a) show 1 ;; *) show 2 ;; esac","files":{"a":""},"table":[{"name":"show","answers":[{}]}]}"#,
        br#"{"calls":[{"argv":["show","2"],"env":{},"input":null}],"end":"ended","err":"","files":{"a":""},"out":"","status":0,"turns":0}
"#,
    ),
    // two stars in one component
    (
        br#"{"script":"show *a*c","files":{"abc":"","xac":"","ab":""},"table":[{"name":"show","answers":[{}]}]}"#,
        br#"{"calls":[{"argv":["show","abc","xac"],"env":{},"input":null}],"end":"ended","err":"","files":{"ab":"","abc":"","xac":""},"out":"","status":0,"turns":0}
"#,
    ),
    // files that the script made are found
    (
        br#"{"script":"echo 1 > b; echo 2 > a; show *","table":[{"name":"show","answers":[{}]}]}"#,
        br#"{"calls":[{"argv":["show","a","b"],"env":{},"input":null}],"end":"ended","err":"","files":{"a":"2\n","b":"1\n"},"out":"","status":0,"turns":0}
"#,
    ),
];
