//! Redirections and here-documents (XCU 2.7).

pub const ROWS: [(&[u8], &[u8]); 43] = [
    // a file is written, appended to, and emptied
    (
        br#"{"script":"echo a > f; echo b >> f; echo c > g; > h","files":{"f":"old","h":"x"}}"#,
        br#"{"calls":[],"end":"ended","err":"","files":{"f":"a\nb\n","g":"c\n","h":""},"out":"","status":0,"turns":0}
"#,
    ),
    // appending makes a file
    (
        br#"{"script":"printf a >> f; printf b >> f"}"#,
        br#"{"calls":[],"end":"ended","err":"","files":{"f":"ab"},"out":"","status":0,"turns":0}
"#,
    ),
    // a file is read
    (
        br#"{"script":"read -r x < f; show \"$x\"","files":{"f":"l1\nl2\n"},"table":[{"name":"show","answers":[{}]}]}"#,
        br#"{"calls":[{"argv":["show","l1"],"env":{},"input":null}],"end":"ended","err":"","files":{"f":"l1\nl2\n"},"out":"","status":0,"turns":0}
"#,
    ),
    // numbered descriptors
    (
        br#"{"script":"{ echo a >&3; echo b; } 3> f > g"}"#,
        br#"{"calls":[],"end":"ended","err":"","files":{"f":"a\n","g":"b\n"},"out":"","status":0,"turns":0}
"#,
    ),
    // duplicates are made from left to right
    (
        br#"{"script":"show 1 > f 2>&1; show 2 2>&1 > g; show 3 2> h","table":[{"name":"show","answers":[{"out":"o","err":"e"}]}]}"#,
        br#"{"calls":[{"argv":["show","1"],"env":{},"input":null},{"argv":["show","2"],"env":{},"input":null},{"argv":["show","3"],"env":{},"input":null}],"end":"ended","err":"","files":{"f":"oe","g":"o","h":"e"},"out":"eo","status":0,"turns":0}
"#,
    ),
    // the errors of a command
    (
        br#"{"script":"show; show 2>&1; show >&2","table":[{"name":"show","answers":[{"out":"o","err":"e"}]}]}"#,
        br#"{"calls":[{"argv":["show"],"env":{},"input":null},{"argv":["show"],"env":{},"input":null},{"argv":["show"],"env":{},"input":null}],"end":"ended","err":"eoe","files":{},"out":"ooe","status":0,"turns":0}
"#,
    ),
    // standard error
    (
        br#"{"script":"echo a >&2; echo b"}"#,
        br#"{"calls":[],"end":"ended","err":"a\n","files":{},"out":"b\n","status":0,"turns":0}
"#,
    ),
    // the last one counts, and the others are made
    (
        br#"{"script":"echo a > f > g"}"#,
        br#"{"calls":[],"end":"ended","err":"","files":{"f":"","g":"a\n"},"out":"","status":0,"turns":0}
"#,
    ),
    // two inputs
    (
        br#"{"script":"{ read -r a <&3; read -r b; show \"$a\" \"$b\"; } < f 3< g","files":{"f":"f1\n","g":"g1\n"},"table":[{"name":"show","answers":[{}]}]}"#,
        br#"{"calls":[{"argv":["show","g1","f1"],"env":{},"input":null}],"end":"ended","err":"","files":{"f":"f1\n","g":"g1\n"},"out":"","status":0,"turns":0}
"#,
    ),
    // a duplicate shares the offset
    (
        br#"{"script":"{ read -r a; read -r b <&3; show \"$a\" \"$b\"; } < f 3<&0","files":{"f":"l1\nl2\n"},"table":[{"name":"show","answers":[{}]}]}"#,
        br#"{"calls":[{"argv":["show","l1","l2"],"env":{},"input":null}],"end":"ended","err":"","files":{"f":"l1\nl2\n"},"out":"","status":0,"turns":0}
"#,
    ),
    // a file that is opened twice has two offsets
    (
        br#"{"script":"{ read -r a; read -r b <&3; show \"$a\" \"$b\"; } < f 3< f","files":{"f":"l1\nl2\n"},"table":[{"name":"show","answers":[{}]}]}"#,
        br#"{"calls":[{"argv":["show","l1","l1"],"env":{},"input":null}],"end":"ended","err":"","files":{"f":"l1\nl2\n"},"out":"","status":0,"turns":0}
"#,
    ),
    // a duplicate for writing shares the offset
    (
        br#"{"script":"{ echo a; echo b >&3; echo c; } > f 3>&1"}"#,
        br#"{"calls":[],"end":"ended","err":"","files":{"f":"a\nb\nc\n"},"out":"","status":0,"turns":0}
"#,
    ),
    // two openings for writing don't
    (
        br#"{"script":"{ echo aa; echo b >&3; } > f 3> f"}"#,
        br#"{"calls":[],"end":"ended","err":"","files":{"f":"b\n\n"},"out":"","status":0,"turns":0}
"#,
    ),
    // a file that is emptied meanwhile is filled with NUL bytes
    (
        br#"{"script":"{ echo aaa; > f; echo b; } > f"}"#,
        br#"{"calls":[],"end":"ended","err":"","files":{"f":"\u0000\u0000\u0000\u0000b\n"},"out":"","status":0,"turns":0}
"#,
    ),
    // appending goes to the end, and another offset stays
    (
        br#"{"script":"{ echo a; echo b >&3; echo c; } > f 3>> f"}"#,
        br#"{"calls":[],"end":"ended","err":"","files":{"f":"a\nc\n"},"out":"","status":0,"turns":0}
"#,
    ),
    // a read sees what was written after the file was opened
    (
        br#"{"script":"{ echo a > f; read -r x; show \"$x\"; } < f","files":{"f":""},"table":[{"name":"show","answers":[{}]}]}"#,
        br#"{"calls":[{"argv":["show","a"],"env":{},"input":null}],"end":"ended","err":"","files":{"f":"a\n"},"out":"","status":0,"turns":0}
"#,
    ),
    // a file is written and read in one run
    (
        br#"{"script":"echo a > f; read -r x < f; echo \"$x$x\" >> f; { echo b; read -r y < g; show \"$x\" \"$y\"; } > g","table":[{"name":"show","answers":[{}]}]}"#,
        br#"{"calls":[{"argv":["show","a","b"],"env":{},"input":null}],"end":"ended","err":"","files":{"f":"a\naa\n","g":"b\n"},"out":"","status":0,"turns":0}
"#,
    ),
    // a built-in whose text can't be written
    (
        br#"{"script":"echo a >&-; show $?; echo a 1< f; show $?","files":{"f":""},"table":[{"name":"show","answers":[{}]}]}"#,
        br#"{"calls":[{"argv":["show","1"],"env":{},"input":null},{"argv":["show","1"],"env":{},"input":null}],"end":"ended","err":"","files":{"f":""},"out":"","status":0,"turns":0}
"#,
    ),
    // a duplicate of what is open for reading can't be written to
    (
        br#"{"script":"echo a >&0; show $?","table":[{"name":"show","answers":[{}]}]}"#,
        br#"{"calls":[{"argv":["show","1"],"env":{},"input":null}],"end":"ended","err":"","files":{},"out":"","status":0,"turns":0}
"#,
    ),
    // a descriptor that isn't open may be closed
    (
        br#"{"script":"echo a 3>&- 4<&-; show $?","table":[{"name":"show","answers":[{}]}]}"#,
        br#"{"calls":[{"argv":["show","0"],"env":{},"input":null}],"end":"ended","err":"","files":{},"out":"a\n","status":0,"turns":0}
"#,
    ),
    // what a command says to a closed descriptor is dropped
    (
        br#"{"script":"show 1 >&-; show 2 2>&-; show 3 > f >&-","table":[{"name":"show","answers":[{"out":"o","err":"e"}]}]}"#,
        br#"{"calls":[{"argv":["show","1"],"env":{},"input":null},{"argv":["show","2"],"env":{},"input":null},{"argv":["show","3"],"env":{},"input":null}],"end":"ended","err":"ee","files":{"f":""},"out":"o","status":0,"turns":0}
"#,
    ),
    // a command takes the rest of the input
    (
        br#"{"script":"read -r x; cat; cat","stdin":"l1\nl2\nl3","table":[{"name":"cat","input":true,"answers":[{}]}]}"#,
        br#"{"calls":[{"argv":["cat"],"env":{},"input":"l2\nl3"},{"argv":["cat"],"env":{},"input":""}],"end":"ended","err":"","files":{},"out":"","status":0,"turns":0}
"#,
    ),
    // a closed input is empty
    (
        br#"{"script":"cat <&-; read -r x <&-; show \"$x\" $?","stdin":"a\n","table":[{"name":"show","answers":[{}]},{"name":"cat","input":true,"answers":[{}]}]}"#,
        br#"{"calls":[{"argv":["cat"],"env":{},"input":""},{"argv":["show","","1"],"env":{},"input":null}],"end":"ended","err":"","files":{},"out":"","status":0,"turns":0}
"#,
    ),
    // redirections of compound commands
    (
        br#"{"script":"if true; then echo a; fi > f; for i in 1 2; do echo $i; done > g; case a in a) echo c ;; esac > h; (echo s) > i; until true; do :; done > j"}"#,
        br#"{"calls":[],"end":"ended","err":"","files":{"f":"a\n","g":"1\n2\n","h":"c\n","i":"s\n","j":""},"out":"","status":0,"turns":2}
"#,
    ),
    // a loop reads a file
    (
        br#"{"script":"while read -r x; do show \"$x\"; done < f","files":{"f":"a\nb\nc"},"table":[{"name":"show","answers":[{}]}]}"#,
        br#"{"calls":[{"argv":["show","a"],"env":{},"input":null},{"argv":["show","b"],"env":{},"input":null}],"end":"ended","err":"","files":{"f":"a\nb\nc"},"out":"","status":0,"turns":2}
"#,
    ),
    // a function's own redirections are made at each call
    (
        br#"{"script":"f() { echo $1; } > f1; f 1; f 2"}"#,
        br#"{"calls":[],"end":"ended","err":"","files":{"f1":"2\n"},"out":"","status":0,"turns":2}
"#,
    ),
    // redirections at a call
    (
        br#"{"script":"f() { echo a; echo b >&2; }; f > o 2> e"}"#,
        br#"{"calls":[],"end":"ended","err":"","files":{"e":"b\n","o":"a\n"},"out":"","status":0,"turns":1}
"#,
    ),
    // descriptors are as before behind a command
    (
        br#"{"script":"{ echo a; } > f; echo b; { { echo c; } 3>&1 > g; echo d; }"}"#,
        br#"{"calls":[],"end":"ended","err":"","files":{"f":"a\n","g":"c\n"},"out":"b\nd\n","status":0,"turns":0}
"#,
    ),
    // the body of a here-document is expanded
    (
        br#"{"script":"x=1\ncat <<E\n$x $(printf y) $((1+1)) \\$z \"q\" ${u-w}\nE\n","table":[{"name":"cat","input":true,"answers":[{}]}]}"#,
        br#"{"calls":[{"argv":["cat"],"env":{},"input":"1 y 2 $z \"q\" w\n"}],"end":"ended","err":"","files":{},"out":"","status":0,"turns":0}
"#,
    ),
    // a quoted delimiter keeps the body
    (
        br#"{"script":"x=1\ncat <<'E'\n$x \\$z\nE\n","table":[{"name":"cat","input":true,"answers":[{}]}]}"#,
        br#"{"calls":[{"argv":["cat"],"env":{},"input":"$x \\$z\n"}],"end":"ended","err":"","files":{},"out":"","status":0,"turns":0}
"#,
    ),
    // tabs are dropped behind <<-
    (
        br#"{"script":"cat <<-E\n\ta\n\t\tb\tc\n\tE\n","table":[{"name":"cat","input":true,"answers":[{}]}]}"#,
        br#"{"calls":[{"argv":["cat"],"env":{},"input":"a\nb\tc\n"}],"end":"ended","err":"","files":{},"out":"","status":0,"turns":0}
"#,
    ),
    // several here-documents follow in order
    (
        br#"{"script":"cat <<A; cat <<B\n1\nA\n2\nB\ncat <<A <<B\n3\nA\n4\nB\n","table":[{"name":"cat","input":true,"answers":[{}]}]}"#,
        br#"{"calls":[{"argv":["cat"],"env":{},"input":"1\n"},{"argv":["cat"],"env":{},"input":"2\n"},{"argv":["cat"],"env":{},"input":"4\n"}],"end":"ended","err":"","files":{},"out":"","status":0,"turns":0}
"#,
    ),
    // a here-document at another descriptor
    (
        br#"{"script":"{ cat; cat <&3; } <<A 3<<B\n1\nA\n2\nB\n","table":[{"name":"cat","input":true,"answers":[{}]}]}"#,
        br#"{"calls":[{"argv":["cat"],"env":{},"input":"1\n"},{"argv":["cat"],"env":{},"input":"2\n"}],"end":"ended","err":"","files":{},"out":"","status":0,"turns":0}
"#,
    ),
    // a here-document is read line by line
    (
        br#"{"script":"while read -r x; do show \"$x\"; done <<E\na\nb\nE\n","table":[{"name":"show","answers":[{}]}]}"#,
        br#"{"calls":[{"argv":["show","a"],"env":{},"input":null},{"argv":["show","b"],"env":{},"input":null}],"end":"ended","err":"","files":{},"out":"","status":0,"turns":2}
"#,
    ),
    // a join in a here-document, and one without lines
    (
        br#"{"script":"cat <<E\na\\\nb\nE\ncat <<E\nE\n","table":[{"name":"cat","input":true,"answers":[{}]}]}"#,
        br#"{"calls":[{"argv":["cat"],"env":{},"input":"ab\n"},{"argv":["cat"],"env":{},"input":""}],"end":"ended","err":"","files":{},"out":"","status":0,"turns":0}
"#,
    ),
    // a here-document is expanded in each round
    (
        br#"{"script":"for i in 1 2; do cat <<E\n$i\nE\ndone\n","table":[{"name":"cat","input":true,"answers":[{}]}]}"#,
        br#"{"calls":[{"argv":["cat"],"env":{},"input":"1\n"},{"argv":["cat"],"env":{},"input":"2\n"}],"end":"ended","err":"","files":{},"out":"","status":0,"turns":2}
"#,
    ),
    // the status and substitutions in a here-document
    (
        br#"{"script":"false\ncat <<E\n$? $(three)$?\nE\nshow $?\n","table":[{"name":"show","answers":[{}]},{"name":"three","answers":[{"status":3}]},{"name":"cat","input":true,"answers":[{}]}]}"#,
        br#"{"calls":[{"argv":["three"],"env":{},"input":null},{"argv":["cat"],"env":{},"input":"1 3\n"},{"argv":["show","0"],"env":{},"input":null}],"end":"ended","err":"","files":{},"out":"","status":0,"turns":0}
"#,
    ),
    // the word of a redirection is one text
    (
        br#"{"script":"f='a b'; echo x > $f; p='*'; echo y > $p; echo z > $(printf g)"}"#,
        br#"{"calls":[],"end":"ended","err":"","files":{"*":"y\n","a b":"x\n","g":"z\n"},"out":"","status":0,"turns":0}
"#,
    ),
    // folders that a write names are made
    (
        br#"{"script":"echo a > d/e/f; read -r x < ./d//e/f; show \"$x\"","table":[{"name":"show","answers":[{}]}]}"#,
        br#"{"calls":[{"argv":["show","a"],"env":{},"input":null}],"end":"ended","err":"","files":{"d/e/f":"a\n"},"out":"","status":0,"turns":0}
"#,
    ),
    // redirections stand anywhere in a command
    (
        br#"{"script":"> f echo a > g b; < f read -r x; show \"$x\"","table":[{"name":"show","answers":[{}]}]}"#,
        br#"{"calls":[{"argv":["show",""],"env":{},"input":null}],"end":"ended","err":"","files":{"f":"","g":"a b\n"},"out":"","status":0,"turns":0}
"#,
    ),
    // a pipeline's ends, and redirections of its stages
    (
        br#"{"script":"printf 'a\\n' 3>&1 >&2 | cat > f; echo b >&2 | cat 2> g","table":[{"name":"cat","input":true,"answers":[{}]}]}"#,
        br#"{"calls":[{"argv":["cat"],"env":{},"input":""},{"argv":["cat"],"env":{},"input":""}],"end":"ended","err":"a\nb\n","files":{"f":"","g":""},"out":"","status":0,"turns":0}
"#,
    ),
    // redirections are made in order, up to the one that fails
    (
        br#"{"script":"echo a > f < gone > g; show $?","table":[{"name":"show","answers":[{}]}],"latitude":{"redirect":1}}"#,
        br#"{"calls":[{"argv":["show","1"],"env":{},"input":null}],"end":"ended","err":"","files":{"f":""},"out":"","status":0,"turns":0}
"#,
    ),
    // an assignment behind a redirection that fails isn't made
    (
        br#"{"script":"x=1 y=$(show) > d; show \"${x-none}\" $?","files":{"d/a":""},"table":[{"name":"show","answers":[{}]}],"latitude":{"redirect":1}}"#,
        br#"{"calls":[{"argv":["show","none","1"],"env":{},"input":null}],"end":"ended","err":"","files":{"d/a":""},"out":"","status":0,"turns":0}
"#,
    ),
];
