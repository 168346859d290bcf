//! The two points that are left open: where the last stage of a pipeline runs, and the status of a redirection that fails.

pub const ROWS: [(&[u8], &[u8]); 66] = [
    // a variable
    (
        br#"{"script":"show a | read -r x; show \"${x-none}\"","table":[{"name":"show","answers":[{}]}],"latitude":{"last":"subshell"}}"#,
        br#"{"calls":[{"argv":["show","a"],"env":{},"input":null},{"argv":["show","none"],"env":{},"input":null}],"end":"ended","err":"","files":{},"out":"","status":0,"turns":0}
"#,
    ),
    (
        br#"{"script":"show a | read -r x; show \"${x-none}\"","table":[{"name":"show","answers":[{}]}],"latitude":{"last":"current"}}"#,
        br#"{"calls":[{"argv":["show","a"],"env":{},"input":null},{"argv":["show",""],"env":{},"input":null}],"end":"ended","err":"","files":{},"out":"","status":0,"turns":0}
"#,
    ),
    // a line
    (
        br#"{"script":"echo a b | read -r x y; show \"$y\" \"$x\"","table":[{"name":"show","answers":[{}]}],"latitude":{"last":"subshell"}}"#,
        br#"{"calls":[{"argv":["show","",""],"env":{},"input":null}],"end":"ended","err":"","files":{},"out":"","status":0,"turns":0}
"#,
    ),
    (
        br#"{"script":"echo a b | read -r x y; show \"$y\" \"$x\"","table":[{"name":"show","answers":[{}]}],"latitude":{"last":"current"}}"#,
        br#"{"calls":[{"argv":["show","b","a"],"env":{},"input":null}],"end":"ended","err":"","files":{},"out":"","status":0,"turns":0}
"#,
    ),
    // `exit` in the last stage
    (
        br#"{"script":": | exit 3; show $?","table":[{"name":"show","answers":[{}]}],"latitude":{"last":"subshell"}}"#,
        br#"{"calls":[{"argv":["show","3"],"env":{},"input":null}],"end":"ended","err":"","files":{},"out":"","status":0,"turns":0}
"#,
    ),
    (
        br#"{"script":": | exit 3; show $?","table":[{"name":"show","answers":[{}]}],"latitude":{"last":"current"}}"#,
        br#"{"calls":[],"end":"ended","err":"","files":{},"out":"","status":3,"turns":0}
"#,
    ),
    // `exit` in the last stage of a subshell
    (
        br#"{"script":"(: | exit 3; show a); show $?","table":[{"name":"show","answers":[{}]}],"latitude":{"last":"subshell"}}"#,
        br#"{"calls":[{"argv":["show","a"],"env":{},"input":null},{"argv":["show","0"],"env":{},"input":null}],"end":"ended","err":"","files":{},"out":"","status":0,"turns":0}
"#,
    ),
    (
        br#"{"script":"(: | exit 3; show a); show $?","table":[{"name":"show","answers":[{}]}],"latitude":{"last":"current"}}"#,
        br#"{"calls":[{"argv":["show","3"],"env":{},"input":null}],"end":"ended","err":"","files":{},"out":"","status":0,"turns":0}
"#,
    ),
    // parameters and marks
    (
        br#"{"script":": | { set -- b c; export x=1; }; show \"$@\"","args":["script","a"],"table":[{"name":"show","answers":[{}]}],"latitude":{"last":"subshell"}}"#,
        br#"{"calls":[{"argv":["show","a"],"env":{},"input":null}],"end":"ended","err":"","files":{},"out":"","status":0,"turns":0}
"#,
    ),
    (
        br#"{"script":": | { set -- b c; export x=1; }; show \"$@\"","args":["script","a"],"table":[{"name":"show","answers":[{}]}],"latitude":{"last":"current"}}"#,
        br#"{"calls":[{"argv":["show","b","c"],"env":{"x":"1"},"input":null}],"end":"ended","err":"","files":{},"out":"","status":0,"turns":0}
"#,
    ),
    // functions
    (
        br#"{"script":": | f() { echo g; }; f","latitude":{"last":"subshell"}}"#,
        br#"{"calls":[{"argv":["f"],"env":{},"input":null}],"end":"ended","err":"","files":{},"out":"","status":127,"turns":0}
"#,
    ),
    (
        br#"{"script":": | f() { echo g; }; f","latitude":{"last":"current"}}"#,
        br#"{"calls":[],"end":"ended","err":"","files":{},"out":"g\n","status":0,"turns":1}
"#,
    ),
    // the opposite of a pipeline
    (
        br#"{"script":"! : | { x=1; false; }; show \"$x\" $?","table":[{"name":"show","answers":[{}]}],"latitude":{"last":"subshell"}}"#,
        br#"{"calls":[{"argv":["show","","0"],"env":{},"input":null}],"end":"ended","err":"","files":{},"out":"","status":0,"turns":0}
"#,
    ),
    (
        br#"{"script":"! : | { x=1; false; }; show \"$x\" $?","table":[{"name":"show","answers":[{}]}],"latitude":{"last":"current"}}"#,
        br#"{"calls":[{"argv":["show","1","0"],"env":{},"input":null}],"end":"ended","err":"","files":{},"out":"","status":0,"turns":0}
"#,
    ),
    // what neither changes
    (
        br#"{"script":"true | read -r x; read -r y; : | (read -r z); read -r w < f; show \"$x\" \"$y\" \"$w\"","stdin":"l1\nl2\n","files":{"f":"f1\n"},"table":[{"name":"show","answers":[{}]}],"latitude":{"last":"subshell"}}"#,
        br#"{"calls":[{"argv":["show","","l1","f1"],"env":{},"input":null}],"end":"ended","err":"","files":{"f":"f1\n"},"out":"","status":0,"turns":0}
"#,
    ),
    (
        br#"{"script":"true | read -r x; read -r y; : | (read -r z); read -r w < f; show \"$x\" \"$y\" \"$w\"","stdin":"l1\nl2\n","files":{"f":"f1\n"},"table":[{"name":"show","answers":[{}]}],"latitude":{"last":"current"}}"#,
        br#"{"calls":[{"argv":["show","","l1","f1"],"env":{},"input":null}],"end":"ended","err":"","files":{"f":"f1\n"},"out":"","status":0,"turns":0}
"#,
    ),
    // the descriptors are as before
    (
        br#"{"script":"printf 'a\\nb\\n' | { read -r x; }; read -r y; show \"$x\" \"$y\"","stdin":"in\n","table":[{"name":"show","answers":[{}]}],"latitude":{"last":"subshell"}}"#,
        br#"{"calls":[{"argv":["show","","in"],"env":{},"input":null}],"end":"ended","err":"","files":{},"out":"","status":0,"turns":0}
"#,
    ),
    (
        br#"{"script":"printf 'a\\nb\\n' | { read -r x; }; read -r y; show \"$x\" \"$y\"","stdin":"in\n","table":[{"name":"show","answers":[{}]}],"latitude":{"last":"current"}}"#,
        br#"{"calls":[{"argv":["show","a","in"],"env":{},"input":null}],"end":"ended","err":"","files":{},"out":"","status":0,"turns":0}
"#,
    ),
    // a pipeline of three
    (
        br#"{"script":"x=0; x=1 | x=2 | x=3; show $x","table":[{"name":"show","answers":[{}]}],"latitude":{"last":"subshell"}}"#,
        br#"{"calls":[{"argv":["show","0"],"env":{},"input":null}],"end":"ended","err":"","files":{},"out":"","status":0,"turns":0}
"#,
    ),
    (
        br#"{"script":"x=0; x=1 | x=2 | x=3; show $x","table":[{"name":"show","answers":[{}]}],"latitude":{"last":"current"}}"#,
        br#"{"calls":[{"argv":["show","3"],"env":{},"input":null}],"end":"ended","err":"","files":{},"out":"","status":0,"turns":0}
"#,
    ),
    // a loop
    (
        br#"{"script":"n=0; printf '1\\n2\\n' | while read -r x; do n=$((n+x)); done; show $n","table":[{"name":"show","answers":[{}]}],"latitude":{"last":"subshell"}}"#,
        br#"{"calls":[{"argv":["show","0"],"env":{},"input":null}],"end":"ended","err":"","files":{},"out":"","status":0,"turns":2}
"#,
    ),
    (
        br#"{"script":"n=0; printf '1\\n2\\n' | while read -r x; do n=$((n+x)); done; show $n","table":[{"name":"show","answers":[{}]}],"latitude":{"last":"current"}}"#,
        br#"{"calls":[{"argv":["show","3"],"env":{},"input":null}],"end":"ended","err":"","files":{},"out":"","status":0,"turns":2}
"#,
    ),
    // a pipeline in a function
    (
        br#"{"script":"f() { : | x=$1; }; x=0; f 1; show $x","table":[{"name":"show","answers":[{}]}],"latitude":{"last":"subshell"}}"#,
        br#"{"calls":[{"argv":["show","0"],"env":{},"input":null}],"end":"ended","err":"","files":{},"out":"","status":0,"turns":1}
"#,
    ),
    (
        br#"{"script":"f() { : | x=$1; }; x=0; f 1; show $x","table":[{"name":"show","answers":[{}]}],"latitude":{"last":"current"}}"#,
        br#"{"calls":[{"argv":["show","1"],"env":{},"input":null}],"end":"ended","err":"","files":{},"out":"","status":0,"turns":1}
"#,
    ),
    // a pipeline in a substitution and a subshell
    (
        br#"{"script":"x=0; y=$(: | x=1; printf $x); (: | x=2; show $x); show $x $y","table":[{"name":"show","answers":[{}]}],"latitude":{"last":"subshell"}}"#,
        br#"{"calls":[{"argv":["show","0"],"env":{},"input":null},{"argv":["show","0","0"],"env":{},"input":null}],"end":"ended","err":"","files":{},"out":"","status":0,"turns":0}
"#,
    ),
    (
        br#"{"script":"x=0; y=$(: | x=1; printf $x); (: | x=2; show $x); show $x $y","table":[{"name":"show","answers":[{}]}],"latitude":{"last":"current"}}"#,
        br#"{"calls":[{"argv":["show","2"],"env":{},"input":null},{"argv":["show","0","1"],"env":{},"input":null}],"end":"ended","err":"","files":{},"out":"","status":0,"turns":0}
"#,
    ),
    // IFS
    (
        br#"{"script":"x=a:b; : | IFS=:; show $x","table":[{"name":"show","answers":[{}]}],"latitude":{"last":"subshell"}}"#,
        br#"{"calls":[{"argv":["show","a:b"],"env":{},"input":null}],"end":"ended","err":"","files":{},"out":"","status":0,"turns":0}
"#,
    ),
    (
        br#"{"script":"x=a:b; : | IFS=:; show $x","table":[{"name":"show","answers":[{}]}],"latitude":{"last":"current"}}"#,
        br#"{"calls":[{"argv":["show","a","b"],"env":{},"input":null}],"end":"ended","err":"","files":{},"out":"","status":0,"turns":0}
"#,
    ),
    // a subshell as the last stage
    (
        br#"{"script":"x=0; : | (x=1); show $x","table":[{"name":"show","answers":[{}]}],"latitude":{"last":"subshell"}}"#,
        br#"{"calls":[{"argv":["show","0"],"env":{},"input":null}],"end":"ended","err":"","files":{},"out":"","status":0,"turns":0}
"#,
    ),
    (
        br#"{"script":"x=0; : | (x=1); show $x","table":[{"name":"show","answers":[{}]}],"latitude":{"last":"current"}}"#,
        br#"{"calls":[{"argv":["show","0"],"env":{},"input":null}],"end":"ended","err":"","files":{},"out":"","status":0,"turns":0}
"#,
    ),
    // `return` in the last stage
    (
        br#"{"script":"f() { : | return 1; show a; }; f","table":[{"name":"show","answers":[{}]}],"latitude":{"last":"subshell"}}"#,
        br#"{"calls":[],"end":"unspecified","err":"","files":null,"out":"","status":null,"turns":1}
"#,
    ),
    // `break` in the last stage
    (
        br#"{"script":"for i in 1; do : | break; done","latitude":{"last":"subshell"}}"#,
        br#"{"calls":[],"end":"unspecified","err":"","files":null,"out":"","status":null,"turns":1}
"#,
    ),
    // a last stage's own loop and function
    (
        br#"{"script":"f() { return 2; }; : | { for i in 1; do break; done; f; }; show $?","table":[{"name":"show","answers":[{}]}],"latitude":{"last":"subshell"}}"#,
        br#"{"calls":[{"argv":["show","2"],"env":{},"input":null}],"end":"ended","err":"","files":{},"out":"","status":0,"turns":2}
"#,
    ),
    (
        br#"{"script":"f() { : | return 1; show a; }; f","table":[{"name":"show","answers":[{}]}],"latitude":{"last":"current"}}"#,
        br#"{"calls":[],"end":"unspecified","err":"","files":null,"out":"","status":null,"turns":1}
"#,
    ),
    (
        br#"{"script":"for i in 1; do : | break; done","latitude":{"last":"current"}}"#,
        br#"{"calls":[],"end":"unspecified","err":"","files":null,"out":"","status":null,"turns":1}
"#,
    ),
    (
        br#"{"script":"f() { return 2; }; : | { for i in 1; do break; done; f; }; show $?","table":[{"name":"show","answers":[{}]}],"latitude":{"last":"current"}}"#,
        br#"{"calls":[{"argv":["show","2"],"env":{},"input":null}],"end":"ended","err":"","files":{},"out":"","status":0,"turns":2}
"#,
    ),
    // a built-in, an external command and a command without a name
    (
        br#"{"script":"true < gone; show $?; show a < gone; show $?; read -r x < gone; show $?","table":[{"name":"show","answers":[{}]}],"latitude":{"redirect":1}}"#,
        br#"{"calls":[{"argv":["show","1"],"env":{},"input":null},{"argv":["show","1"],"env":{},"input":null},{"argv":["show","1"],"env":{},"input":null}],"end":"ended","err":"","files":{},"out":"","status":0,"turns":0}
"#,
    ),
    // a subshell
    (
        br#"{"script":"(show a) < gone; show $?","table":[{"name":"show","answers":[{}]}],"latitude":{"redirect":1}}"#,
        br#"{"calls":[{"argv":["show","1"],"env":{},"input":null}],"end":"ended","err":"","files":{},"out":"","status":0,"turns":0}
"#,
    ),
    // compound commands
    (
        br#"{"script":"{ show a; } < gone; show $?; if true; then show a; fi < gone; show $?; while show a; do :; done < gone; show $?","table":[{"name":"show","answers":[{}]}],"latitude":{"redirect":1}}"#,
        br#"{"calls":[{"argv":["show","1"],"env":{},"input":null},{"argv":["show","1"],"env":{},"input":null},{"argv":["show","1"],"env":{},"input":null}],"end":"ended","err":"","files":{},"out":"","status":0,"turns":0}
"#,
    ),
    // other compound commands
    (
        br#"{"script":"for i in $(show a); do :; done < gone; show $?; case a in a) show a ;; esac < gone; show $?","table":[{"name":"show","answers":[{}]}],"latitude":{"redirect":1}}"#,
        br#"{"calls":[{"argv":["show","1"],"env":{},"input":null},{"argv":["show","1"],"env":{},"input":null}],"end":"ended","err":"","files":{},"out":"","status":0,"turns":0}
"#,
    ),
    // a function, which takes a turn where its own redirection fails
    (
        br#"{"script":"f() { show a; }; f < gone; show $?; g() { show a; } < gone; g; show $?","table":[{"name":"show","answers":[{}]}],"latitude":{"redirect":1}}"#,
        br#"{"calls":[{"argv":["show","1"],"env":{},"input":null},{"argv":["show","1"],"env":{},"input":null}],"end":"ended","err":"","files":{},"out":"","status":0,"turns":1}
"#,
    ),
    // a descriptor that isn't open
    (
        br#"{"script":"echo a >&3; show $?; read -r x <&4; show $?; { echo a; } 3>&-  >&3; show $?","table":[{"name":"show","answers":[{}]}],"latitude":{"redirect":1}}"#,
        br#"{"calls":[{"argv":["show","1"],"env":{},"input":null},{"argv":["show","1"],"env":{},"input":null},{"argv":["show","1"],"env":{},"input":null}],"end":"ended","err":"","files":{},"out":"","status":0,"turns":0}
"#,
    ),
    // a folder, a path under a file, and texts that name no path
    (
        br#"{"script":"echo a > d; show $?; echo a > d/a/b; show $?; echo a > ''; show $?; echo a > ..; show $?","files":{"d/a":""},"table":[{"name":"show","answers":[{}]}],"latitude":{"redirect":1}}"#,
        br#"{"calls":[{"argv":["show","1"],"env":{},"input":null},{"argv":["show","1"],"env":{},"input":null},{"argv":["show","1"],"env":{},"input":null},{"argv":["show","1"],"env":{},"input":null}],"end":"ended","err":"","files":{"d/a":""},"out":"","status":0,"turns":0}
"#,
    ),
    // the status of a run
    (
        br#"{"script":"show a; printf a < gone","table":[{"name":"show","answers":[{}]}],"latitude":{"redirect":1}}"#,
        br#"{"calls":[{"argv":["show","a"],"env":{},"input":null}],"end":"ended","err":"","files":{},"out":"","status":1,"turns":0}
"#,
    ),
    // the status in lists and tests
    (
        br#"{"script":"true < gone || show $?; ! true < gone; show $?; if true < gone; then show a; else show $?; fi","table":[{"name":"show","answers":[{}]}],"latitude":{"redirect":1}}"#,
        br#"{"calls":[{"argv":["show","1"],"env":{},"input":null},{"argv":["show","0"],"env":{},"input":null},{"argv":["show","1"],"env":{},"input":null}],"end":"ended","err":"","files":{},"out":"","status":0,"turns":0}
"#,
    ),
    (
        br#"{"script":"true < gone; show $?; show a < gone; show $?; read -r x < gone; show $?","table":[{"name":"show","answers":[{}]}],"latitude":{"redirect":2}}"#,
        br#"{"calls":[{"argv":["show","2"],"env":{},"input":null},{"argv":["show","2"],"env":{},"input":null},{"argv":["show","2"],"env":{},"input":null}],"end":"ended","err":"","files":{},"out":"","status":0,"turns":0}
"#,
    ),
    (
        br#"{"script":"(show a) < gone; show $?","table":[{"name":"show","answers":[{}]}],"latitude":{"redirect":2}}"#,
        br#"{"calls":[{"argv":["show","2"],"env":{},"input":null}],"end":"ended","err":"","files":{},"out":"","status":0,"turns":0}
"#,
    ),
    (
        br#"{"script":"{ show a; } < gone; show $?; if true; then show a; fi < gone; show $?; while show a; do :; done < gone; show $?","table":[{"name":"show","answers":[{}]}],"latitude":{"redirect":2}}"#,
        br#"{"calls":[{"argv":["show","2"],"env":{},"input":null},{"argv":["show","2"],"env":{},"input":null},{"argv":["show","2"],"env":{},"input":null}],"end":"ended","err":"","files":{},"out":"","status":0,"turns":0}
"#,
    ),
    (
        br#"{"script":"for i in $(show a); do :; done < gone; show $?; case a in a) show a ;; esac < gone; show $?","table":[{"name":"show","answers":[{}]}],"latitude":{"redirect":2}}"#,
        br#"{"calls":[{"argv":["show","2"],"env":{},"input":null},{"argv":["show","2"],"env":{},"input":null}],"end":"ended","err":"","files":{},"out":"","status":0,"turns":0}
"#,
    ),
    (
        br#"{"script":"f() { show a; }; f < gone; show $?; g() { show a; } < gone; g; show $?","table":[{"name":"show","answers":[{}]}],"latitude":{"redirect":2}}"#,
        br#"{"calls":[{"argv":["show","2"],"env":{},"input":null},{"argv":["show","2"],"env":{},"input":null}],"end":"ended","err":"","files":{},"out":"","status":0,"turns":1}
"#,
    ),
    (
        br#"{"script":"echo a >&3; show $?; read -r x <&4; show $?; { echo a; } 3>&-  >&3; show $?","table":[{"name":"show","answers":[{}]}],"latitude":{"redirect":2}}"#,
        br#"{"calls":[{"argv":["show","2"],"env":{},"input":null},{"argv":["show","2"],"env":{},"input":null},{"argv":["show","2"],"env":{},"input":null}],"end":"ended","err":"","files":{},"out":"","status":0,"turns":0}
"#,
    ),
    (
        br#"{"script":"echo a > d; show $?; echo a > d/a/b; show $?; echo a > ''; show $?; echo a > ..; show $?","files":{"d/a":""},"table":[{"name":"show","answers":[{}]}],"latitude":{"redirect":2}}"#,
        br#"{"calls":[{"argv":["show","2"],"env":{},"input":null},{"argv":["show","2"],"env":{},"input":null},{"argv":["show","2"],"env":{},"input":null},{"argv":["show","2"],"env":{},"input":null}],"end":"ended","err":"","files":{"d/a":""},"out":"","status":0,"turns":0}
"#,
    ),
    (
        br#"{"script":"show a; printf a < gone","table":[{"name":"show","answers":[{}]}],"latitude":{"redirect":2}}"#,
        br#"{"calls":[{"argv":["show","a"],"env":{},"input":null}],"end":"ended","err":"","files":{},"out":"","status":2,"turns":0}
"#,
    ),
    (
        br#"{"script":"true < gone || show $?; ! true < gone; show $?; if true < gone; then show a; else show $?; fi","table":[{"name":"show","answers":[{}]}],"latitude":{"redirect":2}}"#,
        br#"{"calls":[{"argv":["show","2"],"env":{},"input":null},{"argv":["show","0"],"env":{},"input":null},{"argv":["show","2"],"env":{},"input":null}],"end":"ended","err":"","files":{},"out":"","status":0,"turns":0}
"#,
    ),
    (
        br#"{"script":"true < gone; show $?; show a < gone; show $?; read -r x < gone; show $?","table":[{"name":"show","answers":[{}]}],"latitude":{"redirect":77}}"#,
        br#"{"calls":[{"argv":["show","77"],"env":{},"input":null},{"argv":["show","77"],"env":{},"input":null},{"argv":["show","77"],"env":{},"input":null}],"end":"ended","err":"","files":{},"out":"","status":0,"turns":0}
"#,
    ),
    (
        br#"{"script":"(show a) < gone; show $?","table":[{"name":"show","answers":[{}]}],"latitude":{"redirect":77}}"#,
        br#"{"calls":[{"argv":["show","77"],"env":{},"input":null}],"end":"ended","err":"","files":{},"out":"","status":0,"turns":0}
"#,
    ),
    (
        br#"{"script":"{ show a; } < gone; show $?; if true; then show a; fi < gone; show $?; while show a; do :; done < gone; show $?","table":[{"name":"show","answers":[{}]}],"latitude":{"redirect":77}}"#,
        br#"{"calls":[{"argv":["show","77"],"env":{},"input":null},{"argv":["show","77"],"env":{},"input":null},{"argv":["show","77"],"env":{},"input":null}],"end":"ended","err":"","files":{},"out":"","status":0,"turns":0}
"#,
    ),
    (
        br#"{"script":"for i in $(show a); do :; done < gone; show $?; case a in a) show a ;; esac < gone; show $?","table":[{"name":"show","answers":[{}]}],"latitude":{"redirect":77}}"#,
        br#"{"calls":[{"argv":["show","77"],"env":{},"input":null},{"argv":["show","77"],"env":{},"input":null}],"end":"ended","err":"","files":{},"out":"","status":0,"turns":0}
"#,
    ),
    (
        br#"{"script":"f() { show a; }; f < gone; show $?; g() { show a; } < gone; g; show $?","table":[{"name":"show","answers":[{}]}],"latitude":{"redirect":77}}"#,
        br#"{"calls":[{"argv":["show","77"],"env":{},"input":null},{"argv":["show","77"],"env":{},"input":null}],"end":"ended","err":"","files":{},"out":"","status":0,"turns":1}
"#,
    ),
    (
        br#"{"script":"echo a >&3; show $?; read -r x <&4; show $?; { echo a; } 3>&-  >&3; show $?","table":[{"name":"show","answers":[{}]}],"latitude":{"redirect":77}}"#,
        br#"{"calls":[{"argv":["show","77"],"env":{},"input":null},{"argv":["show","77"],"env":{},"input":null},{"argv":["show","77"],"env":{},"input":null}],"end":"ended","err":"","files":{},"out":"","status":0,"turns":0}
"#,
    ),
    (
        br#"{"script":"echo a > d; show $?; echo a > d/a/b; show $?; echo a > ''; show $?; echo a > ..; show $?","files":{"d/a":""},"table":[{"name":"show","answers":[{}]}],"latitude":{"redirect":77}}"#,
        br#"{"calls":[{"argv":["show","77"],"env":{},"input":null},{"argv":["show","77"],"env":{},"input":null},{"argv":["show","77"],"env":{},"input":null},{"argv":["show","77"],"env":{},"input":null}],"end":"ended","err":"","files":{"d/a":""},"out":"","status":0,"turns":0}
"#,
    ),
    (
        br#"{"script":"show a; printf a < gone","table":[{"name":"show","answers":[{}]}],"latitude":{"redirect":77}}"#,
        br#"{"calls":[{"argv":["show","a"],"env":{},"input":null}],"end":"ended","err":"","files":{},"out":"","status":77,"turns":0}
"#,
    ),
    (
        br#"{"script":"true < gone || show $?; ! true < gone; show $?; if true < gone; then show a; else show $?; fi","table":[{"name":"show","answers":[{}]}],"latitude":{"redirect":77}}"#,
        br#"{"calls":[{"argv":["show","77"],"env":{},"input":null},{"argv":["show","0"],"env":{},"input":null},{"argv":["show","77"],"env":{},"input":null}],"end":"ended","err":"","files":{},"out":"","status":0,"turns":0}
"#,
    ),
    // both points
    (
        br#"{"script":"show a | { read -r x < gone; }; show \"${x-none}\" $?","table":[{"name":"show","answers":[{}]}],"latitude":{"last":"current","redirect":77}}"#,
        br#"{"calls":[{"argv":["show","a"],"env":{},"input":null},{"argv":["show","none","77"],"env":{},"input":null}],"end":"ended","err":"","files":{},"out":"","status":0,"turns":0}
"#,
    ),
    // a redirection of the last stage that fails
    (
        br#"{"script":"x=0; : | { x=1; } < gone; show $x $?","table":[{"name":"show","answers":[{}]}],"latitude":{"last":"current","redirect":5}}"#,
        br#"{"calls":[{"argv":["show","0","5"],"env":{},"input":null}],"end":"ended","err":"","files":{},"out":"","status":0,"turns":0}
"#,
    ),
    // a write that fails isn't left open
    (
        br#"{"script":"echo a >&-; show $?","table":[{"name":"show","answers":[{}]}],"latitude":{"redirect":77}}"#,
        br#"{"calls":[{"argv":["show","1"],"env":{},"input":null}],"end":"ended","err":"","files":{},"out":"","status":0,"turns":0}
"#,
    ),
];
