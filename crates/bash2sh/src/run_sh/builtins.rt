//! `:`, `true`, `false`, `set`, `shift`, `export` and `unset` (XCU 2.14 and the utilities).

pub const ROWS: [(&[u8], &[u8]); 16] = [
    // statuses of the built-ins
    (
        br#"{"script":":; show $?; false; true; show $?; false; show $?; false; set -- a; show $?; false; shift; show $?; false; export x=1; unset x; show $?","table":[{"name":"show","answers":[{}]}]}"#,
        br#"{"calls":[{"argv":["show","0"],"env":{},"input":null},{"argv":["show","0"],"env":{},"input":null},{"argv":["show","1"],"env":{},"input":null},{"argv":["show","0"],"env":{},"input":null},{"argv":["show","0"],"env":{},"input":null},{"argv":["show","0"],"env":{},"input":null}],"end":"ended","err":"","files":{},"out":"","status":0,"turns":0}
"#,
    ),
    // `set --` sets the parameters
    (
        br#"{"script":"set -- a \"b c\" \"\"; show \"$#\" \"$@\"; set -- \"$@\" d; show \"$#\"; set --; show \"$#\" \"$@\"","args":["script","p"],"table":[{"name":"show","answers":[{}]}]}"#,
        br#"{"calls":[{"argv":["show","3","a","b c",""],"env":{},"input":null},{"argv":["show","4"],"env":{},"input":null},{"argv":["show","0"],"env":{},"input":null}],"end":"ended","err":"","files":{},"out":"","status":0,"turns":0}
"#,
    ),
    // words behind `--` are parameters
    (
        br#"{"script":"set -- -- -a +b; show \"$@\"; x='1 2'; set -- $x; show \"$#\"; set -- $u; show \"$#\"","table":[{"name":"show","answers":[{}]}]}"#,
        br#"{"calls":[{"argv":["show","--","-a","+b"],"env":{},"input":null},{"argv":["show","2"],"env":{},"input":null},{"argv":["show","0"],"env":{},"input":null}],"end":"ended","err":"","files":{},"out":"","status":0,"turns":0}
"#,
    ),
    // `shift`
    (
        br#"{"script":"shift; show \"$@\"; shift 2; show \"$@\"; shift 0; show \"$@\"; n=1; shift $n; show \"$#\"","args":["script","a","b","c","d"],"table":[{"name":"show","answers":[{}]}]}"#,
        br#"{"calls":[{"argv":["show","b","c","d"],"env":{},"input":null},{"argv":["show","d"],"env":{},"input":null},{"argv":["show","d"],"env":{},"input":null},{"argv":["show","0"],"env":{},"input":null}],"end":"ended","err":"","files":{},"out":"","status":0,"turns":0}
"#,
    ),
    // a word of `shift` that gives no field is none
    (
        br#"{"script":"shift $u; show \"$@\"; shift 02; show \"$#\"","args":["script","a","b","c"],"table":[{"name":"show","answers":[{}]}]}"#,
        br#"{"calls":[{"argv":["show","b","c"],"env":{},"input":null},{"argv":["show","0"],"env":{},"input":null}],"end":"ended","err":"","files":{},"out":"","status":0,"turns":0}
"#,
    ),
    // exported variables
    (
        br#"{"script":"export x=1; show a; export y; show b; y=2; show c; x=3; show d","table":[{"name":"show","answers":[{}]}]}"#,
        br#"{"calls":[{"argv":["show","a"],"env":{"x":"1"},"input":null},{"argv":["show","b"],"env":{"x":"1"},"input":null},{"argv":["show","c"],"env":{"x":"1","y":"2"},"input":null},{"argv":["show","d"],"env":{"x":"3","y":"2"},"input":null}],"end":"ended","err":"","files":{},"out":"","status":0,"turns":0}
"#,
    ),
    // a variable that is exported later
    (
        br#"{"script":"x=1; show; export x; show","table":[{"name":"show","answers":[{}]}]}"#,
        br#"{"calls":[{"argv":["show"],"env":{},"input":null},{"argv":["show"],"env":{"x":"1"},"input":null}],"end":"ended","err":"","files":{},"out":"","status":0,"turns":0}
"#,
    ),
    // several operands, and values in quotes
    (
        br#"{"script":"x='a b'; export p=1 q=\"$x\" r='c d' s; show","table":[{"name":"show","answers":[{}]}]}"#,
        br#"{"calls":[{"argv":["show"],"env":{"p":"1","q":"a b","r":"c d"},"input":null}],"end":"ended","err":"","files":{},"out":"","status":0,"turns":0}
"#,
    ),
    // a name without a value keeps its mark
    (
        br#"{"script":"export x; show \"${x-none}\"; : \"${x=1}\"; show","table":[{"name":"show","answers":[{}]}]}"#,
        br#"{"calls":[{"argv":["show","none"],"env":{},"input":null},{"argv":["show"],"env":{"x":"1"},"input":null}],"end":"ended","err":"","files":{},"out":"","status":0,"turns":0}
"#,
    ),
    // `unset` drops value and mark
    (
        br#"{"script":"export x=1; unset x; show \"${x-none}\"; x=2; show; export y; unset y; y=1; show","table":[{"name":"show","answers":[{}]}]}"#,
        br#"{"calls":[{"argv":["show","none"],"env":{},"input":null},{"argv":["show"],"env":{},"input":null},{"argv":["show"],"env":{},"input":null}],"end":"ended","err":"","files":{},"out":"","status":0,"turns":0}
"#,
    ),
    // `unset` of several names, with -v, and of none that is set
    (
        br#"{"script":"x=1 y=2 z=3; unset x y; unset -v z; show \"${x-a}\" \"${y-b}\" \"${z-c}\"; unset u; show $?","table":[{"name":"show","answers":[{}]}]}"#,
        br#"{"calls":[{"argv":["show","a","b","c"],"env":{},"input":null},{"argv":["show","0"],"env":{},"input":null}],"end":"ended","err":"","files":{},"out":"","status":0,"turns":0}
"#,
    ),
    // `unset` of a variable of the environment
    (
        br#"{"script":"unset A; show \"${A-none}\"; A=3; show","env":{"A":"1"},"table":[{"name":"show","answers":[{}]}]}"#,
        br#"{"calls":[{"argv":["show","none"],"env":{},"input":null},{"argv":["show"],"env":{},"input":null}],"end":"ended","err":"","files":{},"out":"","status":0,"turns":0}
"#,
    ),
    // IFS may be unset and set
    (
        br#"{"script":"unset IFS; x='a b:c'; show $x; IFS=:; show $x","table":[{"name":"show","answers":[{}]}]}"#,
        br#"{"calls":[{"argv":["show","a","b:c"],"env":{},"input":null},{"argv":["show","a b","c"],"env":{},"input":null}],"end":"ended","err":"","files":{},"out":"","status":0,"turns":0}
"#,
    ),
    // `:` and the others take no input
    (
        br#"{"script":":; true; false; set -- a; export x; unset x; read -r y; show \"$y\"","stdin":"a\n","table":[{"name":"show","answers":[{}]}]}"#,
        br#"{"calls":[{"argv":["show","a"],"env":{},"input":null}],"end":"ended","err":"","files":{},"out":"","status":0,"turns":0}
"#,
    ),
    // redirections of special built-ins
    (
        br#"{"script":": > f; set -- a > g; export x=1 > h; unset x < f; show \"$1\" \"${x-none}\"","table":[{"name":"show","answers":[{}]}]}"#,
        br#"{"calls":[{"argv":["show","a","none"],"env":{},"input":null}],"end":"ended","err":"","files":{"f":"","g":"","h":""},"out":"","status":0,"turns":0}
"#,
    ),
    // assignments alone before no command
    (
        br#"{"script":"x=1; x=2 y=$x; show $x $y","table":[{"name":"show","answers":[{}]}]}"#,
        br#"{"calls":[{"argv":["show","2","2"],"env":{},"input":null}],"end":"ended","err":"","files":{},"out":"","status":0,"turns":0}
"#,
    ),
];
