//! Tildes, parameters and substitutions (XCU 2.6.1 to 2.6.3), and quoting (2.2).

pub const ROWS: [(&[u8], &[u8]); 32] = [
    // names and digits
    (
        br#"{"script":"x=1; show \"$x\" \"${x}2\" \"$1\" \"${2}\" \"$0\" \"$#\"","args":["sh0","a","b"],"table":[{"name":"show","answers":[{}]}]}"#,
        br#"{"calls":[{"argv":["show","1","12","a","b","sh0","2"],"env":{},"input":null}],"end":"ended","err":"","files":{},"out":"","status":0,"turns":0}
"#,
    ),
    // more digits stand in braces
    (
        br#"{"script":"show \"${10}\" \"$10\"","args":["script","a","b","c","d","e","f","g","h","i","j"],"table":[{"name":"show","answers":[{}]}]}"#,
        br#"{"calls":[{"argv":["show","j","a0"],"env":{},"input":null}],"end":"ended","err":"","files":{},"out":"","status":0,"turns":0}
"#,
    ),
    // what is unset is empty
    (
        br#"{"script":"show \"$x\" \"$3\" \"${y}\"","table":[{"name":"show","answers":[{}]}]}"#,
        br#"{"calls":[{"argv":["show","","",""],"env":{},"input":null}],"end":"ended","err":"","files":{},"out":"","status":0,"turns":0}
"#,
    ),
    // a default where the parameter is unset, with a colon also where it is empty
    (
        br#"{"script":"x=; show \"${x-a}\" \"${x:-a}\" \"${y-b}\" \"${y:-b}\"","table":[{"name":"show","answers":[{}]}]}"#,
        br#"{"calls":[{"argv":["show","","a","b","b"],"env":{},"input":null}],"end":"ended","err":"","files":{},"out":"","status":0,"turns":0}
"#,
    ),
    // an alternate
    (
        br#"{"script":"x=; y=1; show \"${x+a}\" \"${x:+a}\" \"${y+b}\" \"${y:+b}\" \"${z+c}\"","table":[{"name":"show","answers":[{}]}]}"#,
        br#"{"calls":[{"argv":["show","a","","b","b",""],"env":{},"input":null}],"end":"ended","err":"","files":{},"out":"","status":0,"turns":0}
"#,
    ),
    // a default that is assigned
    (
        br#"{"script":"show \"${x=a}\" \"${x=b}\"; y=; show \"${y:=c}\" \"${y=d}\" \"$y\"","table":[{"name":"show","answers":[{}]}]}"#,
        br#"{"calls":[{"argv":["show","a","a"],"env":{},"input":null},{"argv":["show","c","c","c"],"env":{},"input":null}],"end":"ended","err":"","files":{},"out":"","status":0,"turns":0}
"#,
    ),
    // the word is expanded only where it is used
    (
        br#"{"script":"x=1; show \"${x-$(show a)}\" \"${y-$(show b)}\"","table":[{"name":"show","answers":[{}]}]}"#,
        br#"{"calls":[{"argv":["show","b"],"env":{},"input":null},{"argv":["show","1",""],"env":{},"input":null}],"end":"ended","err":"","files":{},"out":"","status":0,"turns":0}
"#,
    ),
    // positional parameters have defaults too
    (
        br#"{"script":"show \"${1-x}\" \"${2-y}\" \"${2:+z}\"","args":["script","a"],"table":[{"name":"show","answers":[{}]}]}"#,
        br#"{"calls":[{"argv":["show","a","y",""],"env":{},"input":null}],"end":"ended","err":"","files":{},"out":"","status":0,"turns":0}
"#,
    ),
    // the status as a parameter
    (
        br#"{"script":"false; show \"${?}\" \"$?\"","table":[{"name":"show","answers":[{}]}]}"#,
        br#"{"calls":[{"argv":["show","1","1"],"env":{},"input":null}],"end":"ended","err":"","files":{},"out":"","status":0,"turns":0}
"#,
    ),
    // lengths
    (
        br#"{"script":"x=abc; show \"${#x}\" \"${#y}\" \"${#}\" \"${#1}\"","args":["script","xy"],"table":[{"name":"show","answers":[{}]}]}"#,
        br#"{"calls":[{"argv":["show","3","0","1","2"],"env":{},"input":null}],"end":"ended","err":"","files":{},"out":"","status":0,"turns":0}
"#,
    ),
    // shortest and longest prefixes and suffixes
    (
        br#"{"script":"x=a.b.c; show \"${x#*.}\" \"${x##*.}\" \"${x%.*}\" \"${x%%.*}\"","table":[{"name":"show","answers":[{}]}]}"#,
        br#"{"calls":[{"argv":["show","b.c","c","a.b","a"],"env":{},"input":null}],"end":"ended","err":"","files":{},"out":"","status":0,"turns":0}
"#,
    ),
    // quotes in a pattern
    (
        br#"{"script":"x='*a*'; show \"${x#\"*\"}\" \"${x%'*'}\" \"${x#\\*a}\"","table":[{"name":"show","answers":[{}]}]}"#,
        br#"{"calls":[{"argv":["show","a*","*a","*"],"env":{},"input":null}],"end":"ended","err":"","files":{},"out":"","status":0,"turns":0}
"#,
    ),
    // what doesn't match stays
    (
        br#"{"script":"x=abc; show \"${x#z}\" \"${x%a}\" \"${u#a}\"","table":[{"name":"show","answers":[{}]}]}"#,
        br#"{"calls":[{"argv":["show","abc","abc",""],"env":{},"input":null}],"end":"ended","err":"","files":{},"out":"","status":0,"turns":0}
"#,
    ),
    // prefixes and suffixes of positional parameters
    (
        br#"{"script":"show \"${1##*/}\" \"${1%/*}\"","args":["script","a/b/c"],"table":[{"name":"show","answers":[{}]}]}"#,
        br#"{"calls":[{"argv":["show","c","a/b"],"env":{},"input":null}],"end":"ended","err":"","files":{},"out":"","status":0,"turns":0}
"#,
    ),
    // expansions in patterns and words
    (
        br#"{"script":"x=a.b; y=.b; show \"${x%\"$y\"}\" \"${z-${x#a}}\" \"${x%$y}\"","table":[{"name":"show","answers":[{}]}]}"#,
        br#"{"calls":[{"argv":["show","a",".b","a"],"env":{},"input":null}],"end":"ended","err":"","files":{},"out":"","status":0,"turns":0}
"#,
    ),
    // the newlines at the end of a substitution go
    (
        br#"{"script":"x=$(printf 'a\\n\\nb\\n\\n\\n'); show \"$x\"","table":[{"name":"show","answers":[{}]}]}"#,
        br#"{"calls":[{"argv":["show","a\n\nb"],"env":{},"input":null}],"end":"ended","err":"","files":{},"out":"","status":0,"turns":0}
"#,
    ),
    // NUL bytes in a substitution go
    (
        br#"{"script":"x=$(printf 'a\\000b'); show \"$x\"","table":[{"name":"show","answers":[{}]}]}"#,
        br#"{"calls":[{"argv":["show","ab"],"env":{},"input":null}],"end":"ended","err":"","files":{},"out":"","status":0,"turns":0}
"#,
    ),
    // substitutions in one another
    (
        br#"{"script":"show \"$(printf %s \"$(printf a)b\")c\"","table":[{"name":"show","answers":[{}]}]}"#,
        br#"{"calls":[{"argv":["show","abc"],"env":{},"input":null}],"end":"ended","err":"","files":{},"out":"","status":0,"turns":0}
"#,
    ),
    // a substitution without commands
    (
        br#"{"script":"false; show \"$()\" $?","table":[{"name":"show","answers":[{}]}]}"#,
        br#"{"calls":[{"argv":["show","","0"],"env":{},"input":null}],"end":"ended","err":"","files":{},"out":"","status":0,"turns":0}
"#,
    ),
    // quoted and unquoted substitutions
    (
        br#"{"script":"show \"$(printf 'a b')\" $(printf 'a b')","table":[{"name":"show","answers":[{}]}]}"#,
        br#"{"calls":[{"argv":["show","a b","a","b"],"env":{},"input":null}],"end":"ended","err":"","files":{},"out":"","status":0,"turns":0}
"#,
    ),
    // the end of a substitution sets the status at once
    (
        br#"{"script":"show \"$(three)\" $? \"$(true)\" $?","table":[{"name":"show","answers":[{}]},{"name":"three","answers":[{"status":3}]}]}"#,
        br#"{"calls":[{"argv":["three"],"env":{},"input":null},{"argv":["show","","3","","0"],"env":{},"input":null}],"end":"ended","err":"","files":{},"out":"","status":0,"turns":0}
"#,
    ),
    // a tilde stands for HOME
    (
        br#"{"script":"show ~ ~/a \"~\" a~ \\~; x=~/b; show \"$x\"","env":{"HOME":"/h"},"table":[{"name":"show","answers":[{}]}]}"#,
        br#"{"calls":[{"argv":["show","/h","/h/a","~","a~","~"],"env":{"HOME":"/h"},"input":null},{"argv":["show","/h/b"],"env":{"HOME":"/h"},"input":null}],"end":"ended","err":"","files":{},"out":"","status":0,"turns":0}
"#,
    ),
    // a tilde in a list of `for`, and in the subject of a `case`
    (
        br#"{"script":"for i in ~; do show \"$i\"; done; case ~ in /h) show c ;; esac","env":{"HOME":"/h"},"table":[{"name":"show","answers":[{}]}]}"#,
        br#"{"calls":[{"argv":["show","/h"],"env":{"HOME":"/h"},"input":null},{"argv":["show","c"],"env":{"HOME":"/h"},"input":null}],"end":"ended","err":"","files":{},"out":"","status":0,"turns":1}
"#,
    ),
    // HOME isn't split, nor matched with names of files
    (
        br#"{"script":"HOME=\"a *\"; show ~ ~/c","files":{"f":""},"table":[{"name":"show","answers":[{}]}]}"#,
        br#"{"calls":[{"argv":["show","a *","a */c"],"env":{},"input":null}],"end":"ended","err":"","files":{"f":""},"out":"","status":0,"turns":0}
"#,
    ),
    // a tilde in the word of a redirection
    (
        br#"{"script":"HOME=h; echo a > ~/f","files":{"h/g":""}}"#,
        br#"{"calls":[],"end":"ended","err":"","files":{"h/f":"a\n","h/g":""},"out":"","status":0,"turns":0}
"#,
    ),
    // an empty HOME gives no field
    (
        br#"{"script":"HOME=; show ~ a","table":[{"name":"show","answers":[{}]}]}"#,
        br#"{"calls":[{"argv":["show","a"],"env":{},"input":null}],"end":"ended","err":"","files":{},"out":"","status":0,"turns":0}
"#,
    ),
    // quoting
    (
        br#"{"script":"show 'a b' \"c d\" e\\ f \"g\\\"h\" \"\\$x\" 'i\\j' \"k\\l\" \"\\\\\" \\'","table":[{"name":"show","answers":[{}]}]}"#,
        br#"{"calls":[{"argv":["show","a b","c d","e f","g\"h","$x","i\\j","k\\l","\\","'"],"env":{},"input":null}],"end":"ended","err":"","files":{},"out":"","status":0,"turns":0}
"#,
    ),
    // quotes that come from an expansion stay
    (
        br#"{"script":"x=\"'a'\"; y='\"b\"'; show $x $y","table":[{"name":"show","answers":[{}]}]}"#,
        br#"{"calls":[{"argv":["show","'a'","\"b\""],"env":{},"input":null}],"end":"ended","err":"","files":{},"out":"","status":0,"turns":0}
"#,
    ),
    // joins are left out
    (
        br#"{"script":"x=a\\\nb; show \"c\\\nd\" $x e\\\n","table":[{"name":"show","answers":[{}]}]}"#,
        br#"{"calls":[{"argv":["show","cd","ab","e"],"env":{},"input":null}],"end":"ended","err":"","files":{},"out":"","status":0,"turns":0}
"#,
    ),
    // a dollar sign that begins no expansion
    (
        br#"{"script":"show a$ \"$\" $.","table":[{"name":"show","answers":[{}]}]}"#,
        br#"{"calls":[{"argv":["show","a$","$","$."],"env":{},"input":null}],"end":"ended","err":"","files":{},"out":"","status":0,"turns":0}
"#,
    ),
    // words are expanded from left to right
    (
        br#"{"script":"x=1; show \"$x\" \"${y=2}\" \"$y\" $((x+y)) \"${x+$(show b)}\"","table":[{"name":"show","answers":[{}]}]}"#,
        br#"{"calls":[{"argv":["show","b"],"env":{},"input":null},{"argv":["show","1","2","2","3",""],"env":{},"input":null}],"end":"ended","err":"","files":{},"out":"","status":0,"turns":0}
"#,
    ),
    // expansions of a status and of the number of parameters in quotes
    (
        br#"{"script":"set -- a b; false; show \"$?$#\" \"a$#\"","table":[{"name":"show","answers":[{}]}]}"#,
        br#"{"calls":[{"argv":["show","12","a2"],"env":{},"input":null}],"end":"ended","err":"","files":{},"out":"","status":0,"turns":0}
"#,
    ),
];
