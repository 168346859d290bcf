use super::*;
use crate::samples::is_refused;
use std::test::Fail;

#[test]
fn no_object(rt: HostRuntime) -> Result<(), Fail> {
    let table: [(&str, &str); 10] = [
        ("", ""),
        ("{", ""),
        ("[]", ""),
        ("\"a\"", ""),
        ("null", ""),
        ("{\"script\":\"\"} x", ""),
        ("{\"script\":\"\\ud800\"}", ""),
        ("{\"script\":\"\",}", ""),
        ("{\"turns\":1e999,\"script\":\"\"}", ""),
        ("{\"script\":\"\tq\"}", ""),
    ];
    for (job, pointer) in table {
        assert!(rt;
            is_refused(rt.alloc(), job.as_bytes(), pointer, Reason::Json)?,
            "{job}"
        );
    }
    Ok(())
}

#[test]
fn bytes_that_are_no_text(rt: HostRuntime) -> Result<(), Fail> {
    let table: [&[u8]; 4] = [
        b"{\"script\":\"\xff\"}",
        b"{\"script\":\"\xc3\"}",
        b"\xef\xbb\xbf{\"script\":\"\"}",
        b"{\"script\":\"\"}\x00",
    ];
    for job in table {
        assert!(rt; is_refused(rt.alloc(), job, "", Reason::Json)?, "{job:?}");
    }
    Ok(())
}

/// Lists and objects nest 127 deep at most.
#[test]
fn deep_values_are_no_json(rt: HostRuntime) -> Result<(), Fail> {
    for (depth, reason) in [(126usize, Reason::Unknown), (127, Reason::Json)] {
        let mut job = String::from_str(rt.alloc(), "{\"a\":")?;
        for _ in 0..depth {
            job.push_str("[")?;
        }
        for _ in 0..depth {
            job.push_str("]")?;
        }
        job.push_str("}")?;
        let pointer = if reason == Reason::Json { "" } else { "/a" };
        assert!(rt; is_refused(rt.alloc(), job.as_bytes(), pointer, reason)?);
    }
    Ok(())
}

#[test]
fn unknown_members_of_a_job(rt: HostRuntime) -> Result<(), Fail> {
    let table: [(&str, &str); 8] = [
        ("{\"script\":\"\",\"scripts\":\"\"}", "/scripts"),
        ("{\"zz\":1,\"script\":1}", "/zz"),
        ("{\"zz\":1,\"b\":1,\"B\":1,\"script\":\"\"}", "/B"),
        ("{\"\":1,\"script\":\"\"}", "/"),
        ("{\"a~b/c\":1,\"script\":\"\"}", "/a~0b~1c"),
        ("{\"\\u00e4\":1,\"script\":\"\"}", "/ä"),
        ("{\"\\u20ac\\n\":1,\"script\":\"\"}", "/€\n"),
        ("{\"\\ud83d\\ude00\":1,\"script\":\"\"}", "/😀"),
    ];
    for (job, pointer) in table {
        assert!(rt;
            is_refused(rt.alloc(), job.as_bytes(), pointer, Reason::Unknown)?,
            "{job}"
        );
    }
    Ok(())
}

#[test]
fn unknown_members_below_a_job(rt: HostRuntime) -> Result<(), Fail> {
    let table: [(&str, &str); 7] = [
        (
            "{\"script\":\"\",\"latitude\":{\"Last\":\"current\",\"redirect\":0}}",
            "/latitude/Last",
        ),
        (
            "{\"script\":\"\",\"table\":[{\"name\":\"a\",\"answers\":[{}],\"x\":1}]}",
            "/table/0/x",
        ),
        (
            "{\"script\":\"\",\"table\":[{\"name\":\"a\",\"argv\":[\"a\"],\"answers\":[{}]}]}",
            "/table/0/name",
        ),
        (
            "{\"script\":\"\",\"table\":[{\"name\":\"a\",\"argv\":[\"a\"],\"answers\":[{}],\"zz\":0}]}",
            "/table/0/name",
        ),
        (
            "{\"script\":\"\",\"table\":[{\"name\":\"a\",\"argv\":[\"a\"],\"answers\":[{}],\"a\":0}]}",
            "/table/0/a",
        ),
        (
            "{\"script\":\"\",\"table\":[{\"name\":\"a\",\"answers\":[{\"status\":0,\"stdout\":\"\"}]}]}",
            "/table/0/answers/0/stdout",
        ),
        (
            "{\"script\":\"\",\"table\":[{\"name\":\"a\",\"answers\":[{},{\"~\":0}]}]}",
            "/table/0/answers/1/~0",
        ),
    ];
    for (job, pointer) in table {
        assert!(rt;
            is_refused(rt.alloc(), job.as_bytes(), pointer, Reason::Unknown)?,
            "{job}"
        );
    }
    Ok(())
}

#[test]
fn missing_members(rt: HostRuntime) -> Result<(), Fail> {
    let table: [(&str, &str); 6] = [
        ("{}", "/script"),
        ("{\"args\":[]}", "/script"),
        ("{\"script\":\"\",\"table\":[{}]}", "/table/0/argv"),
        (
            "{\"script\":\"\",\"table\":[{\"answers\":[{}]}]}",
            "/table/0/argv",
        ),
        (
            "{\"script\":\"\",\"table\":[{\"name\":\"a\"}]}",
            "/table/0/answers",
        ),
        (
            "{\"script\":\"\",\"table\":[{\"name\":\"a\",\"answers\":[{}]},{\"argv\":[\"a\"]}]}",
            "/table/1/answers",
        ),
    ];
    for (job, pointer) in table {
        assert!(rt;
            is_refused(rt.alloc(), job.as_bytes(), pointer, Reason::Missing)?,
            "{job}"
        );
    }
    Ok(())
}

#[test]
fn members_of_another_type(rt: HostRuntime) -> Result<(), Fail> {
    let table: [(&str, &str); 19] = [
        ("{\"script\":1}", "/script"),
        ("{\"script\":null}", "/script"),
        ("{\"script\":[]}", "/script"),
        ("{\"script\":{}}", "/script"),
        ("{\"script\":true}", "/script"),
        ("{\"script\":\"\",\"args\":\"a\"}", "/args"),
        ("{\"script\":\"\",\"args\":{}}", "/args"),
        ("{\"script\":\"\",\"args\":null}", "/args"),
        ("{\"script\":\"\",\"args\":[\"a\",1]}", "/args/1"),
        ("{\"script\":\"\",\"env\":[]}", "/env"),
        ("{\"script\":\"\",\"env\":{\"a\":1}}", "/env/a"),
        ("{\"script\":\"\",\"env\":{\"\":null}}", "/env/"),
        ("{\"script\":\"\",\"env\":{\"a~/b\":1}}", "/env/a~0~1b"),
        ("{\"script\":\"\",\"stdin\":1}", "/stdin"),
        ("{\"script\":\"\",\"files\":[]}", "/files"),
        ("{\"script\":\"\",\"files\":{\"a/b\":[]}}", "/files/a~1b"),
        ("{\"script\":\"\",\"files\":{\"\\u0100\":[]}}", "/files/Ā"),
        ("{\"script\":\"\",\"table\":{}}", "/table"),
        ("{\"script\":\"\",\"table\":[1]}", "/table/0"),
    ];
    for (job, pointer) in table {
        assert!(rt;
            is_refused(rt.alloc(), job.as_bytes(), pointer, Reason::WrongType)?,
            "{job}"
        );
    }
    Ok(())
}

#[test]
fn keys_of_rows_of_another_type(rt: HostRuntime) -> Result<(), Fail> {
    let table: [(&str, &str); 3] = [
        (
            "{\"script\":\"\",\"table\":[{\"name\":1,\"answers\":[{}]}]}",
            "/table/0/name",
        ),
        (
            "{\"script\":\"\",\"table\":[{\"argv\":\"a\",\"answers\":[{}]}]}",
            "/table/0/argv",
        ),
        (
            "{\"script\":\"\",\"table\":[{\"argv\":[\"a\",null],\"answers\":[{}]}]}",
            "/table/0/argv/1",
        ),
    ];
    for (job, pointer) in table {
        assert!(rt;
            is_refused(rt.alloc(), job.as_bytes(), pointer, Reason::WrongType)?,
            "{job}"
        );
    }
    Ok(())
}

#[test]
fn inputs_of_another_type(rt: HostRuntime) -> Result<(), Fail> {
    let table: [(&str, &str); 5] = [
        (
            "{\"script\":\"\",\"table\":[{\"name\":\"a\",\"input\":false,\"answers\":[{}]}]}",
            "/table/0/input",
        ),
        (
            "{\"script\":\"\",\"table\":[{\"name\":\"a\",\"input\":0,\"answers\":[{}]}]}",
            "/table/0/input",
        ),
        (
            "{\"script\":\"\",\"table\":[{\"name\":\"a\",\"input\":[],\"answers\":[{}]}]}",
            "/table/0/input",
        ),
        (
            "{\"script\":\"\",\"table\":[{\"name\":\"a\",\"input\":{},\"answers\":[{}]}]}",
            "/table/0/input",
        ),
        (
            "{\"script\":\"\",\"table\":[{\"name\":\"a\",\"input\":1.5,\"answers\":[{}]}]}",
            "/table/0/input",
        ),
    ];
    for (job, pointer) in table {
        assert!(rt;
            is_refused(rt.alloc(), job.as_bytes(), pointer, Reason::WrongType)?,
            "{job}"
        );
    }
    Ok(())
}

#[test]
fn answers_of_another_type(rt: HostRuntime) -> Result<(), Fail> {
    let table: [(&str, &str); 6] = [
        (
            "{\"script\":\"\",\"table\":[{\"name\":\"a\",\"answers\":{}}]}",
            "/table/0/answers",
        ),
        (
            "{\"script\":\"\",\"table\":[{\"name\":\"a\",\"answers\":[[]]}]}",
            "/table/0/answers/0",
        ),
        (
            "{\"script\":\"\",\"table\":[{\"name\":\"a\",\"answers\":[{\"status\":\"0\"}]}]}",
            "/table/0/answers/0/status",
        ),
        (
            "{\"script\":\"\",\"table\":[{\"name\":\"a\",\"answers\":[{\"status\":0.0}]}]}",
            "/table/0/answers/0/status",
        ),
        (
            "{\"script\":\"\",\"table\":[{\"name\":\"a\",\"answers\":[{\"out\":0}]}]}",
            "/table/0/answers/0/out",
        ),
        (
            "{\"script\":\"\",\"table\":[{\"name\":\"a\",\"answers\":[{\"err\":[]}]}]}",
            "/table/0/answers/0/err",
        ),
    ];
    for (job, pointer) in table {
        assert!(rt;
            is_refused(rt.alloc(), job.as_bytes(), pointer, Reason::WrongType)?,
            "{job}"
        );
    }
    Ok(())
}

#[test]
fn bounds_and_latitude_of_another_type(rt: HostRuntime) -> Result<(), Fail> {
    let table: [(&str, &str); 13] = [
        ("{\"script\":\"\",\"turns\":\"1\"}", "/turns"),
        ("{\"script\":\"\",\"turns\":null}", "/turns"),
        ("{\"script\":\"\",\"turns\":1.5}", "/turns"),
        ("{\"script\":\"\",\"turns\":-0}", "/turns"),
        ("{\"script\":\"\",\"turns\":18446744073709551616}", "/turns"),
        ("{\"script\":\"\",\"turns\":1e3}", "/turns"),
        ("{\"script\":\"\",\"turns\":-9223372036854775809}", "/turns"),
        ("{\"script\":\"\",\"depth\":[]}", "/depth"),
        ("{\"script\":\"\",\"depth\":3.0}", "/depth"),
        ("{\"script\":\"\",\"latitude\":1}", "/latitude"),
        ("{\"script\":\"\",\"latitude\":[]}", "/latitude"),
        (
            "{\"script\":\"\",\"latitude\":{\"last\":true}}",
            "/latitude/last",
        ),
        (
            "{\"script\":\"\",\"latitude\":{\"redirect\":\"1\"}}",
            "/latitude/redirect",
        ),
    ];
    for (job, pointer) in table {
        assert!(rt;
            is_refused(rt.alloc(), job.as_bytes(), pointer, Reason::WrongType)?,
            "{job}"
        );
    }
    Ok(())
}

#[test]
fn the_first_value_of_another_type_counts(rt: HostRuntime) -> Result<(), Fail> {
    let table: [(&str, &str); 10] = [
        (
            "{\"script\":1,\"args\":[],\"env\":[],\"stdin\":1}",
            "/script",
        ),
        ("{\"script\":\"\",\"env\":[],\"stdin\":1}", "/env"),
        ("{\"script\":\"\",\"files\":1,\"stdin\":1}", "/stdin"),
        ("{\"script\":\"\",\"files\":1,\"table\":1}", "/files"),
        ("{\"script\":\"\",\"turns\":-1,\"table\":1}", "/table"),
        ("{\"script\":\"\",\"env\":{\"b\":1,\"a\":1}}", "/env/a"),
        ("{\"script\":\"\",\"env\":{\"a\":1,\"Z\":1}}", "/env/Z"),
        (
            "{\"script\":\"\",\"table\":[{\"name\":1,\"input\":0,\"answers\":0}]}",
            "/table/0/name",
        ),
        (
            "{\"script\":\"\",\"table\":[{\"name\":\"\",\"input\":0,\"answers\":0}]}",
            "/table/0/input",
        ),
        (
            "{\"script\":\"\",\"table\":[{\"name\":\"a\",\"answers\":[{\"err\":0,\"out\":0}]}]}",
            "/table/0/answers/0/out",
        ),
    ];
    for (job, pointer) in table {
        assert!(rt;
            is_refused(rt.alloc(), job.as_bytes(), pointer, Reason::WrongType)?,
            "{job}"
        );
    }
    Ok(())
}

#[test]
fn characters_of_a_job_that_stand_for_no_byte(rt: HostRuntime) -> Result<(), Fail> {
    let table: [(&str, &str); 12] = [
        ("{\"script\":\"a\\u0100\"}", "/script"),
        ("{\"script\":\"\\u0000\"}", "/script"),
        ("{\"script\":\"\\ud83d\\ude00\"}", "/script"),
        ("{\"script\":\"€\"}", "/script"),
        (
            "{\"script\":\"\",\"args\":[\"a\",\"b\",\"\\u0000\"]}",
            "/args/2",
        ),
        ("{\"script\":\"\",\"env\":{\"\\u0101\":\"a\"}}", "/env/ā"),
        ("{\"script\":\"\",\"env\":{\"a\":\"\\u0000\"}}", "/env/a"),
        ("{\"script\":\"\",\"env\":{\"1\":\"\\u0100\"}}", "/env/1"),
        ("{\"script\":\"\",\"stdin\":\"\\u07ff\"}", "/stdin"),
        (
            "{\"script\":\"\",\"files\":{\"a\\u0000\":\"\"}}",
            "/files/a\0",
        ),
        (
            "{\"script\":\"\",\"files\":{\"a\":\"\\u0100\"}}",
            "/files/a",
        ),
        (
            "{\"script\":\"\",\"files\":{\"..\":\"\\u0100\"}}",
            "/files/..",
        ),
    ];
    for (job, pointer) in table {
        assert!(rt;
            is_refused(rt.alloc(), job.as_bytes(), pointer, Reason::NotBytes)?,
            "{job}"
        );
    }
    Ok(())
}

#[test]
fn characters_below_a_job_that_stand_for_no_byte(rt: HostRuntime) -> Result<(), Fail> {
    let table: [(&str, &str); 6] = [
        (
            "{\"script\":\"\",\"table\":[{\"name\":\"\\u0100\",\"answers\":[{}]}]}",
            "/table/0/name",
        ),
        (
            "{\"script\":\"\",\"table\":[{\"argv\":[\"\\u0000\"],\"answers\":[{}]}]}",
            "/table/0/argv/0",
        ),
        (
            "{\"script\":\"\",\"table\":[{\"name\":\"a\",\"input\":\"\\u0000\",\"answers\":[{}]}]}",
            "/table/0/input",
        ),
        (
            "{\"script\":\"\",\"table\":[{\"name\":\"a\",\"answers\":[{\"out\":\"\\u0100\"}]}]}",
            "/table/0/answers/0/out",
        ),
        (
            "{\"script\":\"\",\"table\":[{\"name\":\"a\",\"answers\":[{\"err\":\"\\u0000\"}]}]}",
            "/table/0/answers/0/err",
        ),
        (
            "{\"script\":\"\",\"latitude\":{\"last\":\"\\u0100\"}}",
            "/latitude/last",
        ),
    ];
    for (job, pointer) in table {
        assert!(rt;
            is_refused(rt.alloc(), job.as_bytes(), pointer, Reason::NotBytes)?,
            "{job}"
        );
    }
    Ok(())
}

#[test]
fn reasons_have_words(rt: HostRuntime) -> Result<(), Fail> {
    let table = [
        (Reason::Json, "json"),
        (Reason::Unknown, "unknown"),
        (Reason::Missing, "missing"),
        (Reason::WrongType, "type"),
        (Reason::NotBytes, "not-bytes"),
        (Reason::Range, "range"),
        (Reason::Empty, "empty"),
        (Reason::TooLong, "too-long"),
        (Reason::Name, "name"),
        (Reason::Reserved, "reserved"),
        (Reason::Special, "special"),
        (Reason::Path, "path"),
        (Reason::PathClash, "path-clash"),
    ];
    for (reason, word) in table {
        assert_eq!(rt; reason.word(), word);
    }
    Ok(())
}
