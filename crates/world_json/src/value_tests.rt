use super::*;
use crate::samples::is_refused;
use std::test::Fail;

#[test]
fn bounds_out_of_range(rt: HostRuntime) -> Result<(), Fail> {
    let table: [(&str, &str); 7] = [
        ("{\"script\":\"\",\"turns\":10000001}", "/turns"),
        ("{\"script\":\"\",\"turns\":-1}", "/turns"),
        ("{\"script\":\"\",\"turns\":18446744073709551615}", "/turns"),
        ("{\"script\":\"\",\"turns\":-9223372036854775808}", "/turns"),
        ("{\"script\":\"\",\"turns\":4294967296}", "/turns"),
        ("{\"script\":\"\",\"depth\":33}", "/depth"),
        ("{\"script\":\"\",\"depth\":-1}", "/depth"),
    ];
    for (job, pointer) in table {
        assert!(rt;
            is_refused(rt.alloc(), job.as_bytes(), pointer, Reason::Range)?,
            "{job}"
        );
    }
    Ok(())
}

#[test]
fn latitude_out_of_range(rt: HostRuntime) -> Result<(), Fail> {
    let table: [(&str, &str); 6] = [
        (
            "{\"script\":\"\",\"latitude\":{\"redirect\":0}}",
            "/latitude/redirect",
        ),
        (
            "{\"script\":\"\",\"latitude\":{\"redirect\":126}}",
            "/latitude/redirect",
        ),
        (
            "{\"script\":\"\",\"latitude\":{\"redirect\":-1}}",
            "/latitude/redirect",
        ),
        (
            "{\"script\":\"\",\"latitude\":{\"last\":\"Current\"}}",
            "/latitude/last",
        ),
        (
            "{\"script\":\"\",\"latitude\":{\"last\":\"\"}}",
            "/latitude/last",
        ),
        (
            "{\"script\":\"\",\"latitude\":{\"last\":\"x\",\"redirect\":0}}",
            "/latitude/last",
        ),
    ];
    for (job, pointer) in table {
        assert!(rt;
            is_refused(rt.alloc(), job.as_bytes(), pointer, Reason::Range)?,
            "{job}"
        );
    }
    Ok(())
}

#[test]
fn statuses_out_of_range(rt: HostRuntime) -> Result<(), Fail> {
    let table: [(&str, &str); 2] = [
        (
            "{\"script\":\"\",\"table\":[{\"name\":\"a\",\"answers\":[{},{\"status\":256}]}]}",
            "/table/0/answers/1/status",
        ),
        (
            "{\"script\":\"\",\"table\":[{\"name\":\"a\",\"answers\":[{\"status\":-1}]}]}",
            "/table/0/answers/0/status",
        ),
    ];
    for (job, pointer) in table {
        assert!(rt;
            is_refused(rt.alloc(), job.as_bytes(), pointer, Reason::Range)?,
            "{job}"
        );
    }
    Ok(())
}

#[test]
fn the_first_value_out_of_range_counts(rt: HostRuntime) -> Result<(), Fail> {
    let table: [(&str, &str); 3] = [
        ("{\"script\":\"\",\"turns\":-1,\"depth\":-1}", "/turns"),
        ("{\"script\":\"\",\"latitude\":1,\"depth\":-1}", "/depth"),
        (
            "{\"script\":\"\",\"table\":[{\"name\":\"a\",\"answers\":[{\"err\":0,\"out\":0,\"status\":-1}]}]}",
            "/table/0/answers/0/status",
        ),
    ];
    for (job, pointer) in table {
        assert!(rt;
            is_refused(rt.alloc(), job.as_bytes(), pointer, Reason::Range)?,
            "{job}"
        );
    }
    Ok(())
}

#[test]
fn lists_without_items(rt: HostRuntime) -> Result<(), Fail> {
    let table: [(&str, &str); 4] = [
        ("{\"script\":\"\",\"args\":[]}", "/args"),
        (
            "{\"script\":\"\",\"table\":[{\"argv\":[],\"answers\":[{}]}]}",
            "/table/0/argv",
        ),
        (
            "{\"script\":\"\",\"table\":[{\"name\":\"a\",\"answers\":[]}]}",
            "/table/0/answers",
        ),
        (
            "{\"script\":\"\",\"args\":[],\"env\":[],\"stdin\":1}",
            "/args",
        ),
    ];
    for (job, pointer) in table {
        assert!(rt;
            is_refused(rt.alloc(), job.as_bytes(), pointer, Reason::Empty)?,
            "{job}"
        );
    }
    Ok(())
}

#[test]
fn scripts_that_are_too_long(rt: HostRuntime) -> Result<(), Fail> {
    let table: [(&str, &str); 2] = [
        ("{\"script\":\"12345678901234567\"}", "/script"),
        ("{\"script\":\"\\u00e41234567890123456\"}", "/script"),
    ];
    for (job, pointer) in table {
        assert!(rt;
            is_refused(rt.alloc(), job.as_bytes(), pointer, Reason::TooLong)?,
            "{job}"
        );
    }
    Ok(())
}

#[test]
fn names_of_no_variable(rt: HostRuntime) -> Result<(), Fail> {
    let table: [(&str, &str); 7] = [
        ("{\"script\":\"\",\"env\":{\"\":\"\"}}", "/env/"),
        ("{\"script\":\"\",\"env\":{\"1a\":\"\"}}", "/env/1a"),
        ("{\"script\":\"\",\"env\":{\"a-b\":\"\"}}", "/env/a-b"),
        ("{\"script\":\"\",\"env\":{\"a b\":\"\"}}", "/env/a b"),
        ("{\"script\":\"\",\"env\":{\"=\":\"\"}}", "/env/="),
        ("{\"script\":\"\",\"env\":{\"é\":\"\"}}", "/env/é"),
        (
            "{\"script\":\"\",\"env\":{\"A\":\"\",\"a/b\":\"\"}}",
            "/env/a~1b",
        ),
    ];
    for (job, pointer) in table {
        assert!(rt;
            is_refused(rt.alloc(), job.as_bytes(), pointer, Reason::Name)?,
            "{job}"
        );
    }
    Ok(())
}

#[test]
fn reserved_names(rt: HostRuntime) -> Result<(), Fail> {
    let table: [(&str, &str); 2] = [
        ("{\"script\":\"\",\"env\":{\"__bs_q\":\"\"}}", "/env/__bs_q"),
        ("{\"script\":\"\",\"env\":{\"__bs_\":\"\"}}", "/env/__bs_"),
    ];
    for (job, pointer) in table {
        assert!(rt;
            is_refused(rt.alloc(), job.as_bytes(), pointer, Reason::Reserved)?,
            "{job}"
        );
    }
    Ok(())
}

#[test]
fn special_names(rt: HostRuntime) -> Result<(), Fail> {
    let table: [(&str, &str); 6] = [
        ("{\"script\":\"\",\"env\":{\"IFS\":\"\"}}", "/env/IFS"),
        ("{\"script\":\"\",\"env\":{\"_\":\"\"}}", "/env/_"),
        ("{\"script\":\"\",\"env\":{\"PS1\":\"\"}}", "/env/PS1"),
        ("{\"script\":\"\",\"env\":{\"LC_ALL\":\"\"}}", "/env/LC_ALL"),
        (
            "{\"script\":\"\",\"env\":{\"BASH_ENV\":\"\"}}",
            "/env/BASH_ENV",
        ),
        ("{\"script\":\"\",\"env\":{\"RANDOM\":\"\"}}", "/env/RANDOM"),
    ];
    for (job, pointer) in table {
        assert!(rt;
            is_refused(rt.alloc(), job.as_bytes(), pointer, Reason::Special)?,
            "{job}"
        );
    }
    Ok(())
}

#[test]
fn texts_that_are_no_path(rt: HostRuntime) -> Result<(), Fail> {
    let table: [(&str, &str); 10] = [
        ("{\"script\":\"\",\"files\":{\"\":\"\"}}", "/files/"),
        ("{\"script\":\"\",\"files\":{\"/\":\"\"}}", "/files/~1"),
        ("{\"script\":\"\",\"files\":{\".\":\"\"}}", "/files/."),
        ("{\"script\":\"\",\"files\":{\"..\":\"\"}}", "/files/.."),
        ("{\"script\":\"\",\"files\":{\"a/\":\"\"}}", "/files/a~1"),
        (
            "{\"script\":\"\",\"files\":{\"a//b\":\"\"}}",
            "/files/a~1~1b",
        ),
        ("{\"script\":\"\",\"files\":{\"//a\":\"\"}}", "/files/~1~1a"),
        (
            "{\"script\":\"\",\"files\":{\"a/./b\":\"\"}}",
            "/files/a~1.~1b",
        ),
        (
            "{\"script\":\"\",\"files\":{\"a/../b\":\"\"}}",
            "/files/a~1..~1b",
        ),
        ("{\"script\":\"\",\"files\":{\"/..\":\"\"}}", "/files/~1.."),
    ];
    for (job, pointer) in table {
        assert!(rt;
            is_refused(rt.alloc(), job.as_bytes(), pointer, Reason::Path)?,
            "{job}"
        );
    }
    Ok(())
}

#[test]
fn files_below_files(rt: HostRuntime) -> Result<(), Fail> {
    let table: [(&str, &str); 6] = [
        (
            "{\"script\":\"\",\"files\":{\"a/b\":\"\",\"a\":\"\"}}",
            "/files/a~1b",
        ),
        (
            "{\"script\":\"\",\"files\":{\"a\":\"\",\"a!\":\"\",\"a/b/c\":\"\"}}",
            "/files/a~1b~1c",
        ),
        (
            "{\"script\":\"\",\"files\":{\"/a\":\"\",\"/a/b\":\"\"}}",
            "/files/~1a~1b",
        ),
        (
            "{\"script\":\"\",\"files\":{\"a/b\":\"\",\"a/b/c\":\"\",\"a/b/d\":\"\"}}",
            "/files/a~1b~1c",
        ),
        (
            "{\"script\":\"\",\"files\":{\"a~\":\"\",\"a~/b~\":\"\"}}",
            "/files/a~0~1b~0",
        ),
        (
            "{\"script\":\"\",\"files\":{\"\\u00e4\":\"\",\"\\u00e4/b\":\"\"}}",
            "/files/ä~1b",
        ),
    ];
    for (job, pointer) in table {
        assert!(rt;
            is_refused(rt.alloc(), job.as_bytes(), pointer, Reason::PathClash)?,
            "{job}"
        );
    }
    Ok(())
}
