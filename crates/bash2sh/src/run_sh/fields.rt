//! Field splitting (XCU 2.6.5), and lists of parameters (2.5.2).

pub const ROWS: [(&[u8], &[u8]); 28] = [
    // a colon in IFS keeps blanks
    (
        br#"{"script":"x=' a:b '; IFS=:; set -- $x; show \"$#\" \"$1\" \"$2\"","table":[{"name":"show","answers":[{}]}]}"#,
        br#"{"calls":[{"argv":["show","2"," a","b "],"env":{},"input":null}],"end":"ended","err":"","files":{},"out":"","status":0,"turns":0}
"#,
    ),
    // blanks, tabs and newlines
    (
        br#"{"script":"x='  a  b\tc\n'; show $x","table":[{"name":"show","answers":[{}]}]}"#,
        br#"{"calls":[{"argv":["show","a","b","c"],"env":{},"input":null}],"end":"ended","err":"","files":{},"out":"","status":0,"turns":0}
"#,
    ),
    // what is empty and unquoted gives no field
    (
        br#"{"script":"x=; show $x \"$x\" a","table":[{"name":"show","answers":[{}]}]}"#,
        br#"{"calls":[{"argv":["show","","a"],"env":{},"input":null}],"end":"ended","err":"","files":{},"out":"","status":0,"turns":0}
"#,
    ),
    // an empty IFS splits nothing
    (
        br#"{"script":"IFS=; x='a b'; show $x","table":[{"name":"show","answers":[{}]}]}"#,
        br#"{"calls":[{"argv":["show","a b"],"env":{},"input":null}],"end":"ended","err":"","files":{},"out":"","status":0,"turns":0}
"#,
    ),
    // an unset IFS is space, tab and newline
    (
        br#"{"script":"unset IFS; x='a b'; show $x \"$*\"","args":["script","p","q"],"table":[{"name":"show","answers":[{}]}]}"#,
        br#"{"calls":[{"argv":["show","a","b","p q"],"env":{},"input":null}],"end":"ended","err":"","files":{},"out":"","status":0,"turns":0}
"#,
    ),
    // each other byte of IFS ends a field, and none begins behind the last
    (
        br#"{"script":"IFS=:; x=a::b:; show $x","table":[{"name":"show","answers":[{}]}]}"#,
        br#"{"calls":[{"argv":["show","a","","b"],"env":{},"input":null}],"end":"ended","err":"","files":{},"out":"","status":0,"turns":0}
"#,
    ),
    // an empty field in front
    (
        br#"{"script":"IFS=:; x=:a; show $x","table":[{"name":"show","answers":[{}]}]}"#,
        br#"{"calls":[{"argv":["show","","a"],"env":{},"input":null}],"end":"ended","err":"","files":{},"out":"","status":0,"turns":0}
"#,
    ),
    // white space around another byte of IFS
    (
        br#"{"script":"IFS=' :'; x=' a : b  c : : d '; show $x","table":[{"name":"show","answers":[{}]}]}"#,
        br#"{"calls":[{"argv":["show","a","b","c","","d"],"env":{},"input":null}],"end":"ended","err":"","files":{},"out":"","status":0,"turns":0}
"#,
    ),
    // a delimiter alone is one empty field, and ends a text before it
    (
        br#"{"script":"IFS=:; x=:; show $x; show a$x","table":[{"name":"show","answers":[{}]}]}"#,
        br#"{"calls":[{"argv":["show",""],"env":{},"input":null},{"argv":["show","a"],"env":{},"input":null}],"end":"ended","err":"","files":{},"out":"","status":0,"turns":0}
"#,
    ),
    // only unquoted expansions are split
    (
        br#"{"script":"x='a b'; show x\"$x\"y$x","table":[{"name":"show","answers":[{}]}]}"#,
        br#"{"calls":[{"argv":["show","xa bya","b"],"env":{},"input":null}],"end":"ended","err":"","files":{},"out":"","status":0,"turns":0}
"#,
    ),
    // written bytes aren't split
    (
        br#"{"script":"IFS=x; show axb; y=axb; show $y","table":[{"name":"show","answers":[{}]}]}"#,
        br#"{"calls":[{"argv":["show","axb"],"env":{},"input":null},{"argv":["show","a","b"],"env":{},"input":null}],"end":"ended","err":"","files":{},"out":"","status":0,"turns":0}
"#,
    ),
    // substitutions and arithmetic are split
    (
        br#"{"script":"IFS=1; show $((212)) $(printf 314)","table":[{"name":"show","answers":[{}]}]}"#,
        br#"{"calls":[{"argv":["show","2","2","3","4"],"env":{},"input":null}],"end":"ended","err":"","files":{},"out":"","status":0,"turns":0}
"#,
    ),
    // fields go on in the text beside them
    (
        br#"{"script":"x=' '; show a$x\"b\"$x","table":[{"name":"show","answers":[{}]}]}"#,
        br#"{"calls":[{"argv":["show","a","b"],"env":{},"input":null}],"end":"ended","err":"","files":{},"out":"","status":0,"turns":0}
"#,
    ),
    // an empty quoted part is a field
    (
        br#"{"script":"x='a '; show $x'' ''","table":[{"name":"show","answers":[{}]}]}"#,
        br#"{"calls":[{"argv":["show","a","",""],"env":{},"input":null}],"end":"ended","err":"","files":{},"out":"","status":0,"turns":0}
"#,
    ),
    // a default is split where it isn't quoted
    (
        br#"{"script":"show \"${y-a b}\" ${y-a b} ${y-\"a b\"} ${y-'c d' e}","table":[{"name":"show","answers":[{}]}]}"#,
        br#"{"calls":[{"argv":["show","a b","a","b","a b","c d","e"],"env":{},"input":null}],"end":"ended","err":"","files":{},"out":"","status":0,"turns":0}
"#,
    ),
    // a field for each parameter
    (
        br#"{"script":"show \"$@\"; show x\"$@\"y","args":["script","a b","","c"],"table":[{"name":"show","answers":[{}]}]}"#,
        br#"{"calls":[{"argv":["show","a b","","c"],"env":{},"input":null},{"argv":["show","xa b","","cy"],"env":{},"input":null}],"end":"ended","err":"","files":{},"out":"","status":0,"turns":0}
"#,
    ),
    // without parameters there is no field
    (
        br#"{"script":"show \"$@\" a; show x\"$@\"y","table":[{"name":"show","answers":[{}]}]}"#,
        br#"{"calls":[{"argv":["show","a"],"env":{},"input":null},{"argv":["show","xy"],"env":{},"input":null}],"end":"ended","err":"","files":{},"out":"","status":0,"turns":0}
"#,
    ),
    // one text of all parameters
    (
        br#"{"script":"show \"$*\"; IFS=-; show \"$*\"; IFS=; show \"$*\"; unset IFS; show \"$*\"","args":["script","a","b"],"table":[{"name":"show","answers":[{}]}]}"#,
        br#"{"calls":[{"argv":["show","a b"],"env":{},"input":null},{"argv":["show","a-b"],"env":{},"input":null},{"argv":["show","ab"],"env":{},"input":null},{"argv":["show","a b"],"env":{},"input":null}],"end":"ended","err":"","files":{},"out":"","status":0,"turns":0}
"#,
    ),
    // one text without parameters is empty
    (
        br#"{"script":"show \"$*\" \"a$*\"","table":[{"name":"show","answers":[{}]}]}"#,
        br#"{"calls":[{"argv":["show","","a"],"env":{},"input":null}],"end":"ended","err":"","files":{},"out":"","status":0,"turns":0}
"#,
    ),
    // unquoted lists split each parameter by itself
    (
        br#"{"script":"show $@; show $*","args":["script","a b","","c"],"table":[{"name":"show","answers":[{}]}]}"#,
        br#"{"calls":[{"argv":["show","a","b","c"],"env":{},"input":null},{"argv":["show","a","b","c"],"env":{},"input":null}],"end":"ended","err":"","files":{},"out":"","status":0,"turns":0}
"#,
    ),
    // unquoted lists under another IFS
    (
        br#"{"script":"IFS=:; show $* $@","args":["script","a:b","c"],"table":[{"name":"show","answers":[{}]}]}"#,
        br#"{"calls":[{"argv":["show","a","b","c","a","b","c"],"env":{},"input":null}],"end":"ended","err":"","files":{},"out":"","status":0,"turns":0}
"#,
    ),
    // text around an unquoted list
    (
        br#"{"script":"show x$@y","args":["script","a b","c"],"table":[{"name":"show","answers":[{}]}]}"#,
        br#"{"calls":[{"argv":["show","xa","b","cy"],"env":{},"input":null}],"end":"ended","err":"","files":{},"out":"","status":0,"turns":0}
"#,
    ),
    // assignments aren't split
    (
        br#"{"script":"x='a  b'; y=$x; show \"$y\"","table":[{"name":"show","answers":[{}]}]}"#,
        br#"{"calls":[{"argv":["show","a  b"],"env":{},"input":null}],"end":"ended","err":"","files":{},"out":"","status":0,"turns":0}
"#,
    ),
    // nor is the subject of a `case`
    (
        br#"{"script":"x='a  b'; case $x in 'a  b') show 1 ;; *) show 2 ;; esac","table":[{"name":"show","answers":[{}]}]}"#,
        br#"{"calls":[{"argv":["show","1"],"env":{},"input":null}],"end":"ended","err":"","files":{},"out":"","status":0,"turns":0}
"#,
    ),
    // a list of `for` is split
    (
        br#"{"script":"x='1 2'; for i in $x 3; do show $i; done","table":[{"name":"show","answers":[{}]}]}"#,
        br#"{"calls":[{"argv":["show","1"],"env":{},"input":null},{"argv":["show","2"],"env":{},"input":null},{"argv":["show","3"],"env":{},"input":null}],"end":"ended","err":"","files":{},"out":"","status":0,"turns":3}
"#,
    ),
    // a list in a default gives no field where there are no parameters
    (
        br#"{"script":"show \"${y-$@}\" a","table":[{"name":"show","answers":[{}]}]}"#,
        br#"{"calls":[{"argv":["show","a"],"env":{},"input":null}],"end":"ended","err":"","files":{},"out":"","status":0,"turns":0}
"#,
    ),
    // an assignment of one text of all parameters
    (
        br#"{"script":"IFS=-; x=\"$*\"; show \"$x\"","args":["script","a","b"],"table":[{"name":"show","answers":[{}]}]}"#,
        br#"{"calls":[{"argv":["show","a-b"],"env":{},"input":null}],"end":"ended","err":"","files":{},"out":"","status":0,"turns":0}
"#,
    ),
    // IFS takes effect in the command after it
    (
        br#"{"script":"x=a:b; IFS=: y=$x; show $y","table":[{"name":"show","answers":[{}]}]}"#,
        br#"{"calls":[{"argv":["show","a","b"],"env":{},"input":null}],"end":"ended","err":"","files":{},"out":"","status":0,"turns":0}
"#,
    ),
];
