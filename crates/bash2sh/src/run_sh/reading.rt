//! `read`.

pub const ROWS: [(&[u8], &[u8]); 29] = [
    // fields for names, the rest for the last
    (
        br#"{"script":"read -r a b; show \"$a\" \"$b\" $?","stdin":" 1  2 3  \n","table":[{"name":"show","answers":[{}]}]}"#,
        br#"{"calls":[{"argv":["show","1","2 3","0"],"env":{},"input":null}],"end":"ended","err":"","files":{},"out":"","status":0,"turns":0}
"#,
    ),
    // white space around the only field
    (
        br#"{"script":"read -r x; show \"$x\"","stdin":"  a  b \t\n","table":[{"name":"show","answers":[{}]}]}"#,
        br#"{"calls":[{"argv":["show","a  b"],"env":{},"input":null}],"end":"ended","err":"","files":{},"out":"","status":0,"turns":0}
"#,
    ),
    // a line is kept whole under an empty IFS
    (
        br#"{"script":"IFS= read -r x; show \"$x\"","stdin":"  a  b \nc\n","table":[{"name":"show","answers":[{}]}]}"#,
        br#"{"calls":[{"argv":["show","  a  b "],"env":{},"input":null}],"end":"ended","err":"","files":{},"out":"","status":0,"turns":0}
"#,
    ),
    // a backslash keeps the next byte
    (
        br#"{"script":"read a b; show \"$a\" \"$b\"","stdin":"x\\ y z\\\\\n","table":[{"name":"show","answers":[{}]}]}"#,
        br#"{"calls":[{"argv":["show","x y","z\\"],"env":{},"input":null}],"end":"ended","err":"","files":{},"out":"","status":0,"turns":0}
"#,
    ),
    // and joins lines
    (
        br#"{"script":"read a b; show \"$a\" \"$b\"; read c; show \"$c\"","stdin":"a\\\nb c \\\nd\ne\n","table":[{"name":"show","answers":[{}]}]}"#,
        br#"{"calls":[{"argv":["show","ab","c d"],"env":{},"input":null},{"argv":["show","e"],"env":{},"input":null}],"end":"ended","err":"","files":{},"out":"","status":0,"turns":0}
"#,
    ),
    // with -r it is a byte like others
    (
        br#"{"script":"read -r a b; show \"$a\" \"$b\"","stdin":"x\\ y\\\nz\n","table":[{"name":"show","answers":[{}]}]}"#,
        br#"{"calls":[{"argv":["show","x\\","y\\"],"env":{},"input":null}],"end":"ended","err":"","files":{},"out":"","status":0,"turns":0}
"#,
    ),
    // a backslash that ends the input is dropped
    (
        br#"{"script":"read x; show \"$x\" $?","stdin":"ab\\","table":[{"name":"show","answers":[{}]}]}"#,
        br#"{"calls":[{"argv":["show","ab","1"],"env":{},"input":null}],"end":"ended","err":"","files":{},"out":"","status":0,"turns":0}
"#,
    ),
    // a kept blank at the end stays
    (
        br#"{"script":"read x; show \"$x\"","stdin":"a\\  \n","table":[{"name":"show","answers":[{}]}]}"#,
        br#"{"calls":[{"argv":["show","a "],"env":{},"input":null}],"end":"ended","err":"","files":{},"out":"","status":0,"turns":0}
"#,
    ),
    // with -r none is kept
    (
        br#"{"script":"read -r x; show \"$x\"","stdin":"a\\  \n","table":[{"name":"show","answers":[{}]}]}"#,
        br#"{"calls":[{"argv":["show","a\\"],"env":{},"input":null}],"end":"ended","err":"","files":{},"out":"","status":0,"turns":0}
"#,
    ),
    // names without a field are empty
    (
        br#"{"script":"b=1 c=2; read -r a b c; show \"$a\" \"$b\" \"$c\"","stdin":"x\n","table":[{"name":"show","answers":[{}]}]}"#,
        br#"{"calls":[{"argv":["show","x","",""],"env":{},"input":null}],"end":"ended","err":"","files":{},"out":"","status":0,"turns":0}
"#,
    ),
    // an empty line
    (
        br#"{"script":"x=1; read -r x; show \"$x\" $?","stdin":"\na\n","table":[{"name":"show","answers":[{}]}]}"#,
        br#"{"calls":[{"argv":["show","","0"],"env":{},"input":null}],"end":"ended","err":"","files":{},"out":"","status":0,"turns":0}
"#,
    ),
    // a last line without a newline
    (
        br#"{"script":"read -r x; show \"$x\" $?; read -r x; show \"$x\" $?","stdin":"a","table":[{"name":"show","answers":[{}]}]}"#,
        br#"{"calls":[{"argv":["show","a","1"],"env":{},"input":null},{"argv":["show","","1"],"env":{},"input":null}],"end":"ended","err":"","files":{},"out":"","status":0,"turns":0}
"#,
    ),
    // the end of the input
    (
        br#"{"script":"x=1; read -r x; show \"$x\" $?","stdin":"","table":[{"name":"show","answers":[{}]}]}"#,
        br#"{"calls":[{"argv":["show","","1"],"env":{},"input":null}],"end":"ended","err":"","files":{},"out":"","status":0,"turns":0}
"#,
    ),
    // fields between other bytes
    (
        br#"{"script":"IFS=: read -r a b c; show \"$a\" \"$b\" \"$c\"","stdin":"1::3\n","table":[{"name":"show","answers":[{}]}]}"#,
        br#"{"calls":[{"argv":["show","1","","3"],"env":{},"input":null}],"end":"ended","err":"","files":{},"out":"","status":0,"turns":0}
"#,
    ),
    // the last name takes the rest with its delimiters
    (
        br#"{"script":"IFS=: read -r a b; show \"$a\" \"$b\"; IFS=: read -r a b; show \"$a\" \"$b\"","stdin":"1:2:3:4\n1:2:3:\n","table":[{"name":"show","answers":[{}]}]}"#,
        br#"{"calls":[{"argv":["show","1","2:3:4"],"env":{},"input":null},{"argv":["show","1","2:3:"],"env":{},"input":null}],"end":"ended","err":"","files":{},"out":"","status":0,"turns":0}
"#,
    ),
    // a delimiter behind the last field
    (
        br#"{"script":"IFS=: read -r a b; show \"$a\" \"$b\"; IFS=: read -r a; show \"$a\"; IFS=: read -r a b; show \"$a\" \"$b\"","stdin":"1:2:\n1:\n1:2::\n","table":[{"name":"show","answers":[{}]}]}"#,
        br#"{"calls":[{"argv":["show","1","2"],"env":{},"input":null},{"argv":["show","1"],"env":{},"input":null},{"argv":["show","1","2::"],"env":{},"input":null}],"end":"ended","err":"","files":{},"out":"","status":0,"turns":0}
"#,
    ),
    // white space around other bytes
    (
        br#"{"script":"IFS=' :' read -r a b; show \"$a\" \"$b\"","stdin":" a : b c : \n","table":[{"name":"show","answers":[{}]}]}"#,
        br#"{"calls":[{"argv":["show","a","b c :"],"env":{},"input":null}],"end":"ended","err":"","files":{},"out":"","status":0,"turns":0}
"#,
    ),
    // white space that isn't in IFS stays
    (
        br#"{"script":"IFS=: read -r a b; show \"$a\" \"$b\"","stdin":" a : b c \n","table":[{"name":"show","answers":[{}]}]}"#,
        br#"{"calls":[{"argv":["show"," a "," b c "],"env":{},"input":null}],"end":"ended","err":"","files":{},"out":"","status":0,"turns":0}
"#,
    ),
    // IFS is as before behind it
    (
        br#"{"script":"IFS=: read -r a b; x=c:d; show \"$a\" \"$b\" $x","stdin":"1:2\n","table":[{"name":"show","answers":[{}]}]}"#,
        br#"{"calls":[{"argv":["show","1","2","c:d"],"env":{},"input":null}],"end":"ended","err":"","files":{},"out":"","status":0,"turns":0}
"#,
    ),
    // lines are taken one by one
    (
        br#"{"script":"while read -r x; do show \"$x\"; done; show \"$x\" $?","stdin":"a\nb\nc","table":[{"name":"show","answers":[{}]}]}"#,
        br#"{"calls":[{"argv":["show","a"],"env":{},"input":null},{"argv":["show","b"],"env":{},"input":null},{"argv":["show","c","0"],"env":{},"input":null}],"end":"ended","err":"","files":{},"out":"","status":0,"turns":2}
"#,
    ),
    // and only lines
    (
        br#"{"script":"read -r x; cat","stdin":"a\nb\nc","table":[{"name":"cat","input":true,"answers":[{}]}]}"#,
        br#"{"calls":[{"argv":["cat"],"env":{},"input":"b\nc"}],"end":"ended","err":"","files":{},"out":"","status":0,"turns":0}
"#,
    ),
    // NUL bytes are dropped
    (
        br#"{"script":"printf 'a\\000b \\000c\\n' > f; read -r x y < f; show \"$x\" \"$y\"","table":[{"name":"show","answers":[{}]}]}"#,
        br#"{"calls":[{"argv":["show","ab","c"],"env":{},"input":null}],"end":"ended","err":"","files":{"f":"a\u0000b \u0000c\n"},"out":"","status":0,"turns":0}
"#,
    ),
    // from a here-document, with another descriptor
    (
        br#"{"script":"read -r x <<E\na $1\nE\n{ read -r y; read -r z <&3; } < f 3<<E\nb\nE\nshow \"$x\" $y $z","args":["script","p"],"files":{"f":"f\n"},"table":[{"name":"show","answers":[{}]}]}"#,
        br#"{"calls":[{"argv":["show","a p","f","b"],"env":{},"input":null}],"end":"ended","err":"","files":{"f":"f\n"},"out":"","status":0,"turns":0}
"#,
    ),
    // a prefix is gone behind it
    (
        br#"{"script":"y=1 read -r x; show \"$x\" \"${y-none}\"","stdin":"a\n","table":[{"name":"show","answers":[{}]}]}"#,
        br#"{"calls":[{"argv":["show","a","none"],"env":{},"input":null}],"end":"ended","err":"","files":{},"out":"","status":0,"turns":0}
"#,
    ),
    // an exported variable stays so
    (
        br#"{"script":"export x; read -r x; show","stdin":"a\n","table":[{"name":"show","answers":[{}]}]}"#,
        br#"{"calls":[{"argv":["show"],"env":{"x":"a"},"input":null}],"end":"ended","err":"","files":{},"out":"","status":0,"turns":0}
"#,
    ),
    // a name that stands twice has its last field
    (
        br#"{"script":"read -r x x; show \"$x\"","stdin":"a b c\n","table":[{"name":"show","answers":[{}]}]}"#,
        br#"{"calls":[{"argv":["show","b c"],"env":{},"input":null}],"end":"ended","err":"","files":{},"out":"","status":0,"turns":0}
"#,
    ),
    // backslashes and other bytes of IFS
    (
        br#"{"script":"IFS=: read a b; show \"$a\" \"$b\"","stdin":"x\\:y:z\n","table":[{"name":"show","answers":[{}]}]}"#,
        br#"{"calls":[{"argv":["show","x:y","z"],"env":{},"input":null}],"end":"ended","err":"","files":{},"out":"","status":0,"turns":0}
"#,
    ),
    // a failing `read` in a list
    (
        br#"{"script":"read -r x && show 1; read -r x || show 2 \"$x\"","stdin":"a\nb","table":[{"name":"show","answers":[{}]}]}"#,
        br#"{"calls":[{"argv":["show","1"],"env":{},"input":null},{"argv":["show","2","b"],"env":{},"input":null}],"end":"ended","err":"","files":{},"out":"","status":0,"turns":0}
"#,
    ),
    // a tab is white space of IFS
    (
        br#"{"script":"IFS='\t' read -r a b; show \"$a\" \"$b\"","stdin":"\tx y\t\tz\t\n","table":[{"name":"show","answers":[{}]}]}"#,
        br#"{"calls":[{"argv":["show","x y","z"],"env":{},"input":null}],"end":"ended","err":"","files":{},"out":"","status":0,"turns":0}
"#,
    ),
];
