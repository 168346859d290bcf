//! `test` and `[`.

pub const ROWS: [(&[u8], &[u8]); 27] = [
    // no argument, and one
    (
        br#"{"script":"test; show $?; [ ]; show $?; test a; show $?; [ '' ]; show $?; [ -n ]; show $?; test !; show $?; [ -f ]; show $?; [ = ]; show $?","table":[{"name":"show","answers":[{}]}]}"#,
        br#"{"calls":[{"argv":["show","1"],"env":{},"input":null},{"argv":["show","1"],"env":{},"input":null},{"argv":["show","0"],"env":{},"input":null},{"argv":["show","1"],"env":{},"input":null},{"argv":["show","0"],"env":{},"input":null},{"argv":["show","0"],"env":{},"input":null},{"argv":["show","0"],"env":{},"input":null},{"argv":["show","0"],"env":{},"input":null}],"end":"ended","err":"","files":{},"out":"","status":0,"turns":0}
"#,
    ),
    // two
    (
        br#"{"script":"test -n ''; show $?; test -n a; show $?; [ -z '' ]; show $?; [ -z a ]; show $?; [ ! '' ]; show $?; [ ! a ]; show $?; [ ! -n ]; show $?; [ -n = ]; show $?","table":[{"name":"show","answers":[{}]}]}"#,
        br#"{"calls":[{"argv":["show","1"],"env":{},"input":null},{"argv":["show","0"],"env":{},"input":null},{"argv":["show","0"],"env":{},"input":null},{"argv":["show","1"],"env":{},"input":null},{"argv":["show","0"],"env":{},"input":null},{"argv":["show","1"],"env":{},"input":null},{"argv":["show","1"],"env":{},"input":null},{"argv":["show","0"],"env":{},"input":null}],"end":"ended","err":"","files":{},"out":"","status":0,"turns":0}
"#,
    ),
    // files
    (
        br#"{"script":"[ -e f ]; show $?; [ -f f ]; show $?; [ -d f ]; show $?; [ -s f ]; show $?; [ -r f ]; show $?; [ -w f ]; show $?; [ -s g ]; show $?; [ -e g ]; show $?","files":{"f":"a","g":""},"table":[{"name":"show","answers":[{}]}]}"#,
        br#"{"calls":[{"argv":["show","0"],"env":{},"input":null},{"argv":["show","0"],"env":{},"input":null},{"argv":["show","1"],"env":{},"input":null},{"argv":["show","0"],"env":{},"input":null},{"argv":["show","0"],"env":{},"input":null},{"argv":["show","0"],"env":{},"input":null},{"argv":["show","1"],"env":{},"input":null},{"argv":["show","0"],"env":{},"input":null}],"end":"ended","err":"","files":{"f":"a","g":""},"out":"","status":0,"turns":0}
"#,
    ),
    // folders
    (
        br#"{"script":"[ -e d ]; show $?; [ -f d ]; show $?; [ -d d ]; show $?; [ -d d/ ]; show $?; [ -s d ]; show $?; [ -r d/e ]; show $?; [ -w d/e/. ]; show $?","files":{"d/e/f":""},"table":[{"name":"show","answers":[{}]}]}"#,
        br#"{"calls":[{"argv":["show","0"],"env":{},"input":null},{"argv":["show","1"],"env":{},"input":null},{"argv":["show","0"],"env":{},"input":null},{"argv":["show","0"],"env":{},"input":null},{"argv":["show","0"],"env":{},"input":null},{"argv":["show","0"],"env":{},"input":null},{"argv":["show","0"],"env":{},"input":null}],"end":"ended","err":"","files":{"d/e/f":""},"out":"","status":0,"turns":0}
"#,
    ),
    // what isn't there
    (
        br#"{"script":"[ -e x ]; show $?; [ -f x ]; show $?; [ -d x ]; show $?; [ -s x ]; show $?; [ -r x ]; show $?; [ -w x ]; show $?; [ -e '' ]; show $?; [ -e f/x ]; show $?","files":{"f":"a"},"table":[{"name":"show","answers":[{}]}]}"#,
        br#"{"calls":[{"argv":["show","1"],"env":{},"input":null},{"argv":["show","1"],"env":{},"input":null},{"argv":["show","1"],"env":{},"input":null},{"argv":["show","1"],"env":{},"input":null},{"argv":["show","1"],"env":{},"input":null},{"argv":["show","1"],"env":{},"input":null},{"argv":["show","1"],"env":{},"input":null},{"argv":["show","1"],"env":{},"input":null}],"end":"ended","err":"","files":{"f":"a"},"out":"","status":0,"turns":0}
"#,
    ),
    // texts
    (
        br#"{"script":"[ a = a ]; show $?; [ a = b ]; show $?; [ a != b ]; show $?; [ a != a ]; show $?; [ '' = '' ]; show $?; [ 'a*' = ab ]; show $?; [ ! = ! ]; show $?; [ -f = -f ]; show $?; [ '(' = ')' ]; show $?","table":[{"name":"show","answers":[{}]}]}"#,
        br#"{"calls":[{"argv":["show","0"],"env":{},"input":null},{"argv":["show","1"],"env":{},"input":null},{"argv":["show","0"],"env":{},"input":null},{"argv":["show","1"],"env":{},"input":null},{"argv":["show","0"],"env":{},"input":null},{"argv":["show","1"],"env":{},"input":null},{"argv":["show","0"],"env":{},"input":null},{"argv":["show","0"],"env":{},"input":null},{"argv":["show","1"],"env":{},"input":null}],"end":"ended","err":"","files":{},"out":"","status":0,"turns":0}
"#,
    ),
    // numbers
    (
        br#"{"script":"[ 1 -eq 1 ]; show $?; [ 1 -ne 1 ]; show $?; [ 1 -lt 2 ]; show $?; [ 2 -le 1 ]; show $?; [ 2 -gt 1 ]; show $?; [ 1 -ge 2 ]; show $?; [ 010 -eq 10 ]; show $?; [ -3 -lt +2 ]; show $?","table":[{"name":"show","answers":[{}]}]}"#,
        br#"{"calls":[{"argv":["show","0"],"env":{},"input":null},{"argv":["show","1"],"env":{},"input":null},{"argv":["show","0"],"env":{},"input":null},{"argv":["show","1"],"env":{},"input":null},{"argv":["show","0"],"env":{},"input":null},{"argv":["show","1"],"env":{},"input":null},{"argv":["show","0"],"env":{},"input":null},{"argv":["show","0"],"env":{},"input":null}],"end":"ended","err":"","files":{},"out":"","status":0,"turns":0}
"#,
    ),
    // numbers of 64 bits
    (
        br#"{"script":"[ 9223372036854775807 -gt -9223372036854775808 ]; show $?","table":[{"name":"show","answers":[{}]}]}"#,
        br#"{"calls":[{"argv":["show","0"],"env":{},"input":null}],"end":"ended","err":"","files":{},"out":"","status":0,"turns":0}
"#,
    ),
    // three with a `!`
    (
        br#"{"script":"[ ! -f f ]; show $?; [ ! -f g ]; show $?; [ ! -n '' ]; show $?; [ ! ! a ]; show $?","files":{"f":""},"table":[{"name":"show","answers":[{}]}]}"#,
        br#"{"calls":[{"argv":["show","1"],"env":{},"input":null},{"argv":["show","0"],"env":{},"input":null},{"argv":["show","0"],"env":{},"input":null},{"argv":["show","0"],"env":{},"input":null}],"end":"ended","err":"","files":{"f":""},"out":"","status":0,"turns":0}
"#,
    ),
    // four with a `!`
    (
        br#"{"script":"[ ! a = b ]; show $?; test ! 1 -eq 1; show $?; [ ! ! = ! ]; show $?","table":[{"name":"show","answers":[{}]}]}"#,
        br#"{"calls":[{"argv":["show","0"],"env":{},"input":null},{"argv":["show","1"],"env":{},"input":null},{"argv":["show","1"],"env":{},"input":null}],"end":"ended","err":"","files":{},"out":"","status":0,"turns":0}
"#,
    ),
    // two of them
    (
        br#"{"script":"[ ! ! -n a ]; show $?","table":[{"name":"show","answers":[{}]}]}"#,
        br#"{"calls":[{"argv":["show","0"],"env":{},"input":null}],"end":"ended","err":"","files":{},"out":"","status":0,"turns":0}
"#,
    ),
    // arguments that expansions give
    (
        br#"{"script":"x='a b'; [ \"$x\" = 'a b' ]; show $?; [ -n \"$u\" ]; show $?; [ $u ]; show $?; p='1 = 1'; [ $p ]; show $?; [ -n $u ]; show $?","table":[{"name":"show","answers":[{}]}]}"#,
        br#"{"calls":[{"argv":["show","0"],"env":{},"input":null},{"argv":["show","1"],"env":{},"input":null},{"argv":["show","1"],"env":{},"input":null},{"argv":["show","0"],"env":{},"input":null},{"argv":["show","0"],"env":{},"input":null}],"end":"ended","err":"","files":{},"out":"","status":0,"turns":0}
"#,
    ),
    // the name and the bracket are computed
    (
        br#"{"script":"c=test; $c a; show $?; c='[ a'; $c ]; show $?; b=]; [ a $b; show $?","table":[{"name":"show","answers":[{}]}]}"#,
        br#"{"calls":[{"argv":["show","0"],"env":{},"input":null},{"argv":["show","0"],"env":{},"input":null},{"argv":["show","0"],"env":{},"input":null}],"end":"ended","err":"","files":{},"out":"","status":0,"turns":0}
"#,
    ),
    // a file that a run makes
    (
        br#"{"script":"[ -e f ] || echo a > f; [ -s f ] && show 1; > f; [ -s f ] || show 2","table":[{"name":"show","answers":[{}]}]}"#,
        br#"{"calls":[{"argv":["show","1"],"env":{},"input":null},{"argv":["show","2"],"env":{},"input":null}],"end":"ended","err":"","files":{"f":""},"out":"","status":0,"turns":0}
"#,
    ),
    // another operator for equality
    (
        br#"{"script":"show 1; test 1 == 1","table":[{"name":"show","answers":[{}]}]}"#,
        br#"{"calls":[{"argv":["show","1"],"env":{},"input":null}],"end":"unspecified","err":"","files":null,"out":"","status":null,"turns":0}
"#,
    ),
    // a number that is none
    (
        br#"{"script":"test a -eq 1"}"#,
        br#"{"calls":[],"end":"unspecified","err":"","files":null,"out":"","status":null,"turns":0}
"#,
    ),
    // an empty number
    (
        br#"{"script":"test '' -eq 0"}"#,
        br#"{"calls":[],"end":"unspecified","err":"","files":null,"out":"","status":null,"turns":0}
"#,
    ),
    // a number past 64 bits
    (
        br#"{"script":"test 9223372036854775808 -gt 1"}"#,
        br#"{"calls":[],"end":"unspecified","err":"","files":null,"out":"","status":null,"turns":0}
"#,
    ),
    // blanks around a number
    (
        br#"{"script":"test ' 1' -eq 1"}"#,
        br#"{"calls":[],"end":"unspecified","err":"","files":null,"out":"","status":null,"turns":0}
"#,
    ),
    // another operator for a file
    (
        br#"{"script":"test -x f"}"#,
        br#"{"calls":[],"end":"unspecified","err":"","files":null,"out":"","status":null,"turns":0}
"#,
    ),
    // two arguments without an operator
    (
        br#"{"script":"test a b"}"#,
        br#"{"calls":[],"end":"unspecified","err":"","files":null,"out":"","status":null,"turns":0}
"#,
    ),
    // three arguments without one
    (
        br#"{"script":"test a -a b"}"#,
        br#"{"calls":[],"end":"unspecified","err":"","files":null,"out":"","status":null,"turns":0}
"#,
    ),
    // parentheses
    (
        br#"{"script":"test '(' a ')'"}"#,
        br#"{"calls":[],"end":"unspecified","err":"","files":null,"out":"","status":null,"turns":0}
"#,
    ),
    // five arguments
    (
        br#"{"script":"test a = a -o b"}"#,
        br#"{"calls":[],"end":"unspecified","err":"","files":null,"out":"","status":null,"turns":0}
"#,
    ),
    // a negated test of three that has no operator
    (
        br#"{"script":"test ! a b c"}"#,
        br#"{"calls":[],"end":"unspecified","err":"","files":null,"out":"","status":null,"turns":0}
"#,
    ),
    // no bracket at the end
    (
        br#"{"script":"[ a = a"}"#,
        br#"{"calls":[],"end":"unspecified","err":"","files":null,"out":"","status":null,"turns":0}
"#,
    ),
    // an order of texts
    (
        br#"{"script":"[ a '<' b ]"}"#,
        br#"{"calls":[],"end":"unspecified","err":"","files":null,"out":"","status":null,"turns":0}
"#,
    ),
];
