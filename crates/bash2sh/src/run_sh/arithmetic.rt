//! Arithmetic expansion (XCU 2.6.4).

pub const ROWS: [(&[u8], &[u8]); 22] = [
    // the order of operators
    (
        br#"{"script":"show $((1+2*3)) $(((1+2)*3)) $((7/2)) $((-7/2)) $((-7%3)) $((7%-3))","table":[{"name":"show","answers":[{}]}]}"#,
        br#"{"calls":[{"argv":["show","7","9","3","-3","-1","1"],"env":{},"input":null}],"end":"ended","err":"","files":{},"out":"","status":0,"turns":0}
"#,
    ),
    // bits
    (
        br#"{"script":"show $((6&3)) $((6|3)) $((6^3)) $((~6)) $((1<<4)) $((-16>>2))","table":[{"name":"show","answers":[{}]}]}"#,
        br#"{"calls":[{"argv":["show","2","7","5","-7","16","-4"],"env":{},"input":null}],"end":"ended","err":"","files":{},"out":"","status":0,"turns":0}
"#,
    ),
    // comparisons and truth
    (
        br#"{"script":"show $((1<2)) $((2<=1)) $((3>2)) $((2>=3)) $((1==1)) $((1!=1)) $((!0)) $((!5)) $((2&&0)) $((0||3))","table":[{"name":"show","answers":[{}]}]}"#,
        br#"{"calls":[{"argv":["show","1","0","1","0","1","0","1","0","0","1"],"env":{},"input":null}],"end":"ended","err":"","files":{},"out":"","status":0,"turns":0}
"#,
    ),
    // a choice
    (
        br#"{"script":"show $((1?2:3)) $((0?2:0?4:5))","table":[{"name":"show","answers":[{}]}]}"#,
        br#"{"calls":[{"argv":["show","2","5"],"env":{},"input":null}],"end":"ended","err":"","files":{},"out":"","status":0,"turns":0}
"#,
    ),
    // from left to right
    (
        br#"{"script":"show $((5-3-1)) $((2-(3-1))) $((24/4/3)) $((- - 1)) $((2- -1))","table":[{"name":"show","answers":[{}]}]}"#,
        br#"{"calls":[{"argv":["show","1","0","2","1","3"],"env":{},"input":null}],"end":"ended","err":"","files":{},"out":"","status":0,"turns":0}
"#,
    ),
    // names
    (
        br#"{"script":"x=5; y=-2; show $((x+y)) $((x*$y)) $((-y)) $((${x}+$x))","table":[{"name":"show","answers":[{}]}]}"#,
        br#"{"calls":[{"argv":["show","3","-10","2","10"],"env":{},"input":null}],"end":"ended","err":"","files":{},"out":"","status":0,"turns":0}
"#,
    ),
    // octal constants
    (
        br#"{"script":"show $((010)) $((00)); x=017; show $((x)) $((+x)) $(($x))","table":[{"name":"show","answers":[{}]}]}"#,
        br#"{"calls":[{"argv":["show","8","0"],"env":{},"input":null},{"argv":["show","15","15","15"],"env":{},"input":null}],"end":"ended","err":"","files":{},"out":"","status":0,"turns":0}
"#,
    ),
    // hexadecimal and signed constants
    (
        br#"{"script":"show $((0x1F)) $((0X0a)) $((0)); y=0xff z=-3 w=+4; show $((y)) $((z)) $((w)) $((-0x10))","table":[{"name":"show","answers":[{}]}]}"#,
        br#"{"calls":[{"argv":["show","31","10","0"],"env":{},"input":null},{"argv":["show","255","-3","4","-16"],"env":{},"input":null}],"end":"ended","err":"","files":{},"out":"","status":0,"turns":0}
"#,
    ),
    // assignments
    (
        br#"{"script":"show $((x=3)) \"$x\" $((x+=2)) $((x*=3)) $((x-=1)) $((x/=2)) $((x%=4)) \"$x\"","table":[{"name":"show","answers":[{}]}]}"#,
        br#"{"calls":[{"argv":["show","3","3","5","15","14","7","3","3"],"env":{},"input":null}],"end":"ended","err":"","files":{},"out":"","status":0,"turns":0}
"#,
    ),
    // assignments by bits
    (
        br#"{"script":"x=6; show $((x<<=2)) $((x>>=1)) $((x&=12)) $((x|=3)) $((x^=5)) \"$x\"","table":[{"name":"show","answers":[{}]}]}"#,
        br#"{"calls":[{"argv":["show","24","12","12","15","10","10"],"env":{},"input":null}],"end":"ended","err":"","files":{},"out":"","status":0,"turns":0}
"#,
    ),
    // what isn't taken isn't evaluated
    (
        br#"{"script":"show $((0&&u)) $((1||u)) $((1?2:u)) $((0?u:3))","table":[{"name":"show","answers":[{}]}]}"#,
        br#"{"calls":[{"argv":["show","0","1","2","3"],"env":{},"input":null}],"end":"ended","err":"","files":{},"out":"","status":0,"turns":0}
"#,
    ),
    // nor assigned
    (
        br#"{"script":"show $((0&&(x=1))) $((1||(x=2))) $((1?3:(x=4))) \"${x-none}\"","table":[{"name":"show","answers":[{}]}]}"#,
        br#"{"calls":[{"argv":["show","0","1","3","none"],"env":{},"input":null}],"end":"ended","err":"","files":{},"out":"","status":0,"turns":0}
"#,
    ),
    // numbers have 64 bits
    (
        br#"{"script":"show $((9223372036854775807+1)) $((-9223372036854775807-2)) $((4294967296*4294967296))","table":[{"name":"show","answers":[{}]}]}"#,
        br#"{"calls":[{"argv":["show","-9223372036854775808","9223372036854775807","0"],"env":{},"input":null}],"end":"ended","err":"","files":{},"out":"","status":0,"turns":0}
"#,
    ),
    // shifts
    (
        br#"{"script":"show $((1<<63)) $((1<<0)) $((-1>>63))","table":[{"name":"show","answers":[{}]}]}"#,
        br#"{"calls":[{"argv":["show","-9223372036854775808","1","-1"],"env":{},"input":null}],"end":"ended","err":"","files":{},"out":"","status":0,"turns":0}
"#,
    ),
    // the least number divided by -1 is itself
    (
        br#"{"script":"x=-9223372036854775808; show $((x/-1)) $((x%-1))","table":[{"name":"show","answers":[{}]}]}"#,
        br#"{"calls":[{"argv":["show","-9223372036854775808","0"],"env":{},"input":null}],"end":"ended","err":"","files":{},"out":"","status":0,"turns":0}
"#,
    ),
    // operands are expanded first
    (
        br#"{"script":"show $(( $(printf 2) * ${x-3} + ${#u} ))","table":[{"name":"show","answers":[{}]}]}"#,
        br#"{"calls":[{"argv":["show","6"],"env":{},"input":null}],"end":"ended","err":"","files":{},"out":"","status":0,"turns":0}
"#,
    ),
    // operands that aren't taken are expanded too
    (
        br#"{"script":"show $((1||$(three 1)))","table":[{"name":"show","answers":[{}]},{"name":"three","answers":[{"out":"5"}]}]}"#,
        br#"{"calls":[{"argv":["three","1"],"env":{},"input":null},{"argv":["show","1"],"env":{},"input":null}],"end":"ended","err":"","files":{},"out":"","status":0,"turns":0}
"#,
    ),
    // blanks and newlines
    (
        br#"{"script":"x=4; show \"$(( 1 +\n 2\t* x ))\"","table":[{"name":"show","answers":[{}]}]}"#,
        br#"{"calls":[{"argv":["show","9"],"env":{},"input":null}],"end":"ended","err":"","files":{},"out":"","status":0,"turns":0}
"#,
    ),
    // a signed operand behind another operator
    (
        br#"{"script":"x=-3; show $((2*$x)) $((1 - (2 * $x)))","table":[{"name":"show","answers":[{}]}]}"#,
        br#"{"calls":[{"argv":["show","-6","7"],"env":{},"input":null}],"end":"ended","err":"","files":{},"out":"","status":0,"turns":0}
"#,
    ),
    // an assignment keeps the mark of an exported variable
    (
        br#"{"script":"export x=1; : $((x=2)); show","table":[{"name":"show","answers":[{}]}]}"#,
        br#"{"calls":[{"argv":["show"],"env":{"x":"2"},"input":null}],"end":"ended","err":"","files":{},"out":"","status":0,"turns":0}
"#,
    ),
    // arithmetic in a loop
    (
        br#"{"script":"i=0; while [ $i != 3 ]; do i=$((i+1)); done; show $i","table":[{"name":"show","answers":[{}]}]}"#,
        br#"{"calls":[{"argv":["show","3"],"env":{},"input":null}],"end":"ended","err":"","files":{},"out":"","status":0,"turns":3}
"#,
    ),
    // a value that arithmetic has assigned
    (
        br#"{"script":"y=$((x=2)); show $x $y $((x=y=7)) $x $y","table":[{"name":"show","answers":[{}]}]}"#,
        br#"{"calls":[{"argv":["show","2","2","7","7","7"],"env":{},"input":null}],"end":"ended","err":"","files":{},"out":"","status":0,"turns":0}
"#,
    ),
];
