//! `printf` and `echo`.

pub const ROWS: [(&[u8], &[u8]); 42] = [
    // the format is used again, and missing arguments are empty or 0
    (
        br#"{"script":"printf '%s-%d|' a 1 b"}"#,
        br#"{"calls":[],"end":"ended","err":"","files":{},"out":"a-1|b-0|","status":0,"turns":0}
"#,
    ),
    // escapes of a format
    (
        br#"{"script":"printf 'a\\tb\\\\c\\n\\101\\0601\\a\\b\\f\\r\\v'"}"#,
        br#"{"calls":[],"end":"ended","err":"","files":{},"out":"a\tb\\c\nA01\u0007\b\f\r\u000b","status":0,"turns":0}
"#,
    ),
    // a percent sign
    (
        br#"{"script":"printf '%d%%\\n' 5; printf '100%%'"}"#,
        br#"{"calls":[],"end":"ended","err":"","files":{},"out":"5%\n100%","status":0,"turns":0}
"#,
    ),
    // widths, precisions and flags
    (
        br#"{"script":"printf '[%5s][%-5s][%05d][%+d][% d][%.2s][%.0s]' ab cd 42 7 8 xyz xyz"}"#,
        br#"{"calls":[],"end":"ended","err":"","files":{},"out":"[   ab][cd   ][00042][+7][ 8][xy][]","status":0,"turns":0}
"#,
    ),
    // flags and precisions
    (
        br#"{"script":"printf '[%-05d][%+ d][%.3d][%5.2d][%-4d][%+d]' 1 2 5 7 9 -4"}"#,
        br#"{"calls":[],"end":"ended","err":"","files":{},"out":"[1    ][+2][005][   07][9   ][-4]","status":0,"turns":0}
"#,
    ),
    // a precision wins over zeros
    (
        br#"{"script":"printf '[%05.2d][%05.4x]' 3 255"}"#,
        br#"{"calls":[],"end":"ended","err":"","files":{},"out":"[   03][ 00ff]","status":0,"turns":0}
"#,
    ),
    // bases
    (
        br#"{"script":"printf '%d %i %u %o %x %X' 10 -3 8 8 255 255"}"#,
        br#"{"calls":[],"end":"ended","err":"","files":{},"out":"10 -3 8 10 ff FF","status":0,"turns":0}
"#,
    ),
    // negative numbers without a sign
    (
        br#"{"script":"printf '%x %u' -1 -2"}"#,
        br#"{"calls":[],"end":"ended","err":"","files":{},"out":"ffffffffffffffff 18446744073709551614","status":0,"turns":0}
"#,
    ),
    // octal arguments
    (
        br#"{"script":"printf '%d %u' 010 -00"}"#,
        br#"{"calls":[],"end":"ended","err":"","files":{},"out":"8 0","status":0,"turns":0}
"#,
    ),
    // hexadecimal and signed arguments
    (
        br#"{"script":"printf '%d %d %d' 0x10 -0x1 +7"}"#,
        br#"{"calls":[],"end":"ended","err":"","files":{},"out":"16 -1 7","status":0,"turns":0}
"#,
    ),
    // without arguments
    (
        br#"{"script":"printf '%s-%d|'; printf '%b'"}"#,
        br#"{"calls":[],"end":"ended","err":"","files":{},"out":"-0|","status":0,"turns":0}
"#,
    ),
    // a line for each argument
    (
        br#"{"script":"printf '%s\\n' a 'b c' ''"}"#,
        br#"{"calls":[],"end":"ended","err":"","files":{},"out":"a\nb c\n\n","status":0,"turns":0}
"#,
    ),
    // arguments by twos
    (
        br#"{"script":"printf '%s %s\\n' a b c"}"#,
        br#"{"calls":[],"end":"ended","err":"","files":{},"out":"a b\nc \n","status":0,"turns":0}
"#,
    ),
    // escapes of an argument
    (
        br#"{"script":"printf '%b|' 'a\\tb' 'c\\0101d' 'x\\\\y' 'e%d'"}"#,
        br#"{"calls":[],"end":"ended","err":"","files":{},"out":"a\tb|cAd|x\\y|e%d|","status":0,"turns":0}
"#,
    ),
    // the end of all output
    (
        br#"{"script":"printf '%b%s|' 'a\\cb' z; printf '%s|%b' a 'b\\c' c d"}"#,
        br#"{"calls":[],"end":"ended","err":"","files":{},"out":"aa|b","status":0,"turns":0}
"#,
    ),
    // `--` before the format
    (
        br#"{"script":"printf -- '%s' -x; printf -- a"}"#,
        br#"{"calls":[],"end":"ended","err":"","files":{},"out":"-xa","status":0,"turns":0}
"#,
    ),
    // the status, and a text that can't be written
    (
        br#"{"script":"printf a; show $?; printf a >&-; show $?","table":[{"name":"show","answers":[{}]}]}"#,
        br#"{"calls":[{"argv":["show","0"],"env":{},"input":null},{"argv":["show","1"],"env":{},"input":null}],"end":"ended","err":"","files":{},"out":"a","status":0,"turns":0}
"#,
    ),
    // nothing can be written anywhere
    (
        br#"{"script":"printf '' >&-; show $?","table":[{"name":"show","answers":[{}]}]}"#,
        br#"{"calls":[{"argv":["show","0"],"env":{},"input":null}],"end":"ended","err":"","files":{},"out":"","status":0,"turns":0}
"#,
    ),
    // NUL bytes
    (
        br#"{"script":"printf 'a\\000b'; printf '%b' 'c\\0'"}"#,
        br#"{"calls":[],"end":"ended","err":"","files":{},"out":"a\u0000bc\u0000","status":0,"turns":0}
"#,
    ),
    // bytes above 127
    (
        br#"{"script":"printf '\\377\\200'"}"#,
        b"{\"calls\":[],\"end\":\"ended\",\"err\":\"\",\"files\":{},\"out\":\"\xc3\xbf\xc2\x80\",\"status\":0,\"turns\":0}\n",
    ),
    // a computed format
    (
        br#"{"script":"f='%s:%s\\n'; printf \"$f\" a b; printf $f c"}"#,
        br#"{"calls":[],"end":"ended","err":"","files":{},"out":"a:b\nc:\n","status":0,"turns":0}
"#,
    ),
    // bounds of numbers
    (
        br#"{"script":"printf '%d %d' 9223372036854775807 -9223372036854775808"}"#,
        br#"{"calls":[],"end":"ended","err":"","files":{},"out":"9223372036854775807 -9223372036854775808","status":0,"turns":0}
"#,
    ),
    // a width that is too small, and zeros behind a sign
    (
        br#"{"script":"printf '%1s|%3s|%04d|%+04d' abc '' -5 5"}"#,
        br#"{"calls":[],"end":"ended","err":"","files":{},"out":"abc|   |-005|+005","status":0,"turns":0}
"#,
    ),
    // `echo`
    (
        br#"{"script":"echo; echo a  b; echo ''; echo \"a  b\"; echo a -n; x='c  d'; echo $x \"$x\""}"#,
        br#"{"calls":[],"end":"ended","err":"","files":{},"out":"\na b\n\na  b\na -n\nc d c  d\n","status":0,"turns":0}
"#,
    ),
    // `echo` has a status, and one where the text can't be written
    (
        br#"{"script":"false; echo a; show $?; echo >&-; show $?","table":[{"name":"show","answers":[{}]}]}"#,
        br#"{"calls":[{"argv":["show","0"],"env":{},"input":null},{"argv":["show","1"],"env":{},"input":null}],"end":"ended","err":"","files":{},"out":"a\n","status":0,"turns":0}
"#,
    ),
    // `echo` takes a percent sign and quotes as they are
    (
        br#"{"script":"echo 50% '\"' \"'\" \"%s\" '$x'"}"#,
        br#"{"calls":[],"end":"ended","err":"","files":{},"out":"50% \" ' %s $x\n","status":0,"turns":0}
"#,
    ),
    // a number that is no constant
    (
        br#"{"script":"printf a; printf '%d' 1x"}"#,
        br#"{"calls":[],"end":"unspecified","err":"","files":null,"out":"a","status":null,"turns":0}
"#,
    ),
    // an argument that is there and empty is no number
    (
        br#"{"script":"printf '%d' ''"}"#,
        br#"{"calls":[],"end":"unspecified","err":"","files":null,"out":"","status":null,"turns":0}
"#,
    ),
    // a number past 64 bits
    (
        br#"{"script":"printf '%d' 9223372036854775808"}"#,
        br#"{"calls":[],"end":"unspecified","err":"","files":null,"out":"","status":null,"turns":0}
"#,
    ),
    // a character as a number
    (
        br#"{"script":"printf '%d' \"'a\""}"#,
        br#"{"calls":[],"end":"unspecified","err":"","files":null,"out":"","status":null,"turns":0}
"#,
    ),
    // where a string is wanted it is one
    (
        br#"{"script":"printf '%s' \"'a\""}"#,
        br#"{"calls":[],"end":"ended","err":"","files":{},"out":"'a","status":0,"turns":0}
"#,
    ),
    // a format with a flag that isn't taken
    (
        br#"{"script":"printf '%#x' 1"}"#,
        br#"{"calls":[],"end":"unspecified","err":"","files":null,"out":"","status":null,"turns":0}
"#,
    ),
    // a conversion that isn't taken
    (
        br#"{"script":"printf '%c' a"}"#,
        br#"{"calls":[],"end":"unspecified","err":"","files":null,"out":"","status":null,"turns":0}
"#,
    ),
    // a width among the arguments
    (
        br#"{"script":"printf '%*d' 3 1"}"#,
        br#"{"calls":[],"end":"unspecified","err":"","files":null,"out":"","status":null,"turns":0}
"#,
    ),
    // a percent sign at the end
    (
        br#"{"script":"printf 'a%'"}"#,
        br#"{"calls":[],"end":"unspecified","err":"","files":null,"out":"","status":null,"turns":0}
"#,
    ),
    // a flag of `%b`
    (
        br#"{"script":"printf '%5b' a"}"#,
        br#"{"calls":[],"end":"unspecified","err":"","files":null,"out":"","status":null,"turns":0}
"#,
    ),
    // an escape that formats don't have
    (
        br#"{"script":"printf '\\c'"}"#,
        br#"{"calls":[],"end":"unspecified","err":"","files":null,"out":"","status":null,"turns":0}
"#,
    ),
    // an octal escape above 377
    (
        br#"{"script":"printf '\\400'"}"#,
        br#"{"calls":[],"end":"unspecified","err":"","files":null,"out":"","status":null,"turns":0}
"#,
    ),
    // a format that begins with a minus sign, behind `--` too
    (
        br#"{"script":"printf -- -a"}"#,
        br#"{"calls":[],"end":"unspecified","err":"","files":null,"out":"","status":null,"turns":0}
"#,
    ),
    // an escape that `%b` doesn't have
    (
        br#"{"script":"printf '%b' 'a\\x41'"}"#,
        br#"{"calls":[],"end":"unspecified","err":"","files":null,"out":"","status":null,"turns":0}
"#,
    ),
    // octal digits without a 0 in an argument
    (
        br#"{"script":"printf '%b' '\\101'"}"#,
        br#"{"calls":[],"end":"unspecified","err":"","files":null,"out":"","status":null,"turns":0}
"#,
    ),
    // what stands behind the end of the output isn't looked at
    (
        br#"{"script":"printf '%b%d' '\\cx\\x' y"}"#,
        br#"{"calls":[],"end":"ended","err":"","files":{},"out":"","status":0,"turns":0}
"#,
    ),
];
