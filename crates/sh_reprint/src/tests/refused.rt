use super::refused_at;
use std::test::Fail;

#[test]
fn places_of_errors(rt: HostRuntime) -> Result<(), Fail> {
    refused_at(
        &rt,
        rt.alloc(),
        &[
            (b")", 0),
            (b"  )", 2),
            (b"# x\n)", 4),
            (b"\\\n)", 2),
            (b"a\n)", 2),
            (b"a\nb )\nc", 2),
            (b"a\n\n # x\n if", 9),
            (b"a; )", 0),
            (b"'a", 0),
            (b"\"a", 0),
            (b"`a`", 0),
            (b"$$", 0),
            (b"$!", 0),
            (b"a\n${", 2),
            (b"${a!}", 0),
            (b"a\nb &\n", 2),
            (b"a\n$(b", 2),
            (b"a <<E\nx\nE\nb )", 10),
            (b"a <<E\nx\n", 0),
            (b"a\x00b", 0),
            (b"a\n\x00", 2),
            (b"a #\n;", 4),
            (b"if a\nthen b", 0),
            (b"a <<'\nE'\n", 0),
            (b"a << ${E}\nE\n", 0),
            (b"<<1<2\n1\n", 0),
            (b"a\\", 0),
        ],
    )
}
