use super::*;
use crate::samples::{pairs_of, texts_of};
use shell_world::{Answer, Bounds, Latitude, Row, RowInput, RowKey, World};
use span_text::{List, Memory, Text};
use std::alloc::Global;
use std::test::Fail;

/// The world of a job that has a script alone.
fn plain(alloc: Global) -> Result<World, Memory> {
    Ok(World {
        args: texts_of(alloc, &[b"script"])?,
        env: List::new(alloc),
        files: List::new(alloc),
        rows: List::new(alloc),
        stdin: Text::new(alloc),
        bounds: Bounds {
            turns: 100_000,
            depth: 32,
        },
        latitude: Latitude {
            last_current: false,
            redirect: 1,
        },
    })
}

fn answer(alloc: Global, status: u8, out: &[u8], err: &[u8]) -> Result<Answer, Memory> {
    Ok(Answer {
        status,
        out: Text::copy(alloc, out)?,
        err: Text::copy(alloc, err)?,
    })
}

/// Whether the bytes are the job of this script and world.
fn is_job(alloc: Global, bytes: &[u8], script: &[u8], world: World) -> Result<bool, Memory> {
    let job = Job {
        script: Text::copy(alloc, script)?,
        world,
    };
    Ok(read(alloc, bytes, 1_048_576) == Ok(job))
}

#[test]
fn a_script_alone_is_a_job(rt: HostRuntime) -> Result<(), Fail> {
    let world = plain(rt.alloc())?;
    assert!(rt; is_job(rt.alloc(), b"{\"script\":\"\"}", b"", world)?);
    let world = plain(rt.alloc())?;
    let bytes: &[u8] = b" {\n\t\"script\" : \"show \\\"a\\\"\\n\" } \r\n";
    assert!(rt; is_job(rt.alloc(), bytes, b"show \"a\"\n", world)?);
    let world = plain(rt.alloc())?;
    let bytes: &[u8] =
        b"{\"script\":\"\",\"table\":[],\"env\":{},\"files\":{},\"latitude\":{},\"stdin\":\"\"}";
    assert!(rt; is_job(rt.alloc(), bytes, b"", world)?);
    Ok(())
}

/// As `serde_json` has it, the last of two members of one name counts.
#[test]
fn the_last_of_two_members_counts(rt: HostRuntime) -> Result<(), Fail> {
    let mut world = plain(rt.alloc())?;
    world.env = pairs_of(rt.alloc(), &[(b"a", b"2")])?;
    let bytes: &[u8] = b"{\"script\":1,\"env\":{\"a\":1,\"a\":\"2\"},\"script\":\"x\"}";
    assert!(rt; is_job(rt.alloc(), bytes, b"x", world)?);
    Ok(())
}

#[test]
fn characters_stand_for_bytes(rt: HostRuntime) -> Result<(), Fail> {
    let mut world = plain(rt.alloc())?;
    world.stdin = Text::copy(rt.alloc(), b"\x80\xe4\xff")?;
    world.files = pairs_of(rt.alloc(), &[(b"\xe4", b"\x7f")])?;
    let bytes: &[u8] =
        b"{\"script\":\"\\u0001\\u007F\\u0080\\u00ff\",\"stdin\":\"\xc2\x80\xc3\xa4\xc3\xbf\",\"files\":{\"\xc3\xa4\":\"\x7f\"}}";
    assert!(rt; is_job(rt.alloc(), bytes, b"\x01\x7f\x80\xff", world)?);
    texts_are_characters();
    Ok(())
}

#[test]
fn names_and_paths_stand_in_order(rt: HostRuntime) -> Result<(), Fail> {
    let mut world = plain(rt.alloc())?;
    world.args = texts_of(rt.alloc(), &[b"", b"-v", b""])?;
    world.env = pairs_of(
        rt.alloc(),
        &[(b"A", b"1"), (b"Z_9", b""), (b"a", b"0"), (b"ab", b"=")],
    )?;
    world.files = pairs_of(
        rt.alloc(),
        &[
            (b"...", b""),
            (b"/a", b"1"),
            (b"/dev/null", b""),
            (b"a!b", b""),
            (b"a/b", b"2"),
            (b"a/b c", b""),
            (b"ab", b""),
            (b"~/.x", b"~"),
        ],
    )?;
    let bytes: &[u8] =
        b"{\"script\":\"\",\"args\":[\"\",\"-v\",\"\"],\"env\":{\"ab\":\"=\",\"a\":\"0\",\"Z_9\":\"\",\"A\":\"1\"},\"files\":{\"~/.x\":\"~\",\"ab\":\"\",\"a/b c\":\"\",\"a/b\":\"2\",\"a!b\":\"\",\"/dev/null\":\"\",\"/a\":\"1\",\"...\":\"\"}}";
    assert!(rt; is_job(rt.alloc(), bytes, b"", world)?);
    Ok(())
}

#[test]
fn rows_have_keys_inputs_and_answers(rt: HostRuntime) -> Result<(), Fail> {
    let alloc = rt.alloc();
    let mut world = plain(alloc)?;
    let mut answers = List::new(alloc);
    answers.push(answer(alloc, 0, b"", b"")?)?;
    world.rows.push(Row {
        key: RowKey::Name(Text::copy(alloc, b"")?),
        input: RowInput::Nothing,
        answers,
    })?;
    let mut answers = List::new(alloc);
    answers.push(answer(alloc, 255, b"o", b"")?)?;
    answers.push(answer(alloc, 0, b"", b"e\n")?)?;
    world.rows.push(Row {
        key: RowKey::Whole(texts_of(alloc, &[b"cat", b""])?),
        input: RowInput::Any,
        answers,
    })?;
    let mut answers = List::new(alloc);
    answers.push(answer(alloc, 1, b"", b"")?)?;
    world.rows.push(Row {
        key: RowKey::Name(Text::copy(alloc, b"show")?),
        input: RowInput::Exactly(Text::copy(alloc, b"")?),
        answers,
    })?;
    let bytes: &[u8] =
        b"{\"script\":\"\",\"table\":[{\"name\":\"\",\"input\":null,\"answers\":[{}]},{\"argv\":[\"cat\",\"\"],\"input\":true,\"answers\":[{\"status\":255,\"out\":\"o\"},{\"err\":\"e\\n\"}]},{\"name\":\"show\",\"input\":\"\",\"answers\":[{\"status\":1}]}]}";
    assert!(rt; is_job(alloc, bytes, b"", world)?);
    Ok(())
}

fn bounded(alloc: Global, turns: u32, depth: u32) -> Result<World, Memory> {
    let mut world = plain(alloc)?;
    world.bounds = Bounds { turns, depth };
    Ok(world)
}

fn latitude(alloc: Global, last_current: bool, redirect: u8) -> Result<World, Memory> {
    let mut world = plain(alloc)?;
    world.latitude = Latitude {
        last_current,
        redirect,
    };
    Ok(world)
}

#[test]
fn bounds_reach_their_limits(rt: HostRuntime) -> Result<(), Fail> {
    let table: [(&[u8], u32, u32); 3] = [
        (b"{\"script\":\"\",\"turns\":0,\"depth\":0}", 0, 0),
        (
            b"{\"script\":\"\",\"turns\":10000000,\"depth\":32}",
            10_000_000,
            32,
        ),
        (b"{\"script\":\"\",\"depth\":1}", 100_000, 1),
    ];
    for (bytes, turns, depth) in table {
        let world = bounded(rt.alloc(), turns, depth)?;
        assert!(rt; is_job(rt.alloc(), bytes, b"", world)?);
    }
    Ok(())
}

#[test]
fn the_latitude_reaches_its_limits(rt: HostRuntime) -> Result<(), Fail> {
    let table: [(&[u8], bool, u8); 4] = [
        (
            b"{\"script\":\"\",\"latitude\":{\"redirect\":125}}",
            false,
            125,
        ),
        (
            b"{\"script\":\"\",\"latitude\":{\"last\":\"current\"}}",
            true,
            1,
        ),
        (
            b"{\"script\":\"\",\"latitude\":{\"last\":\"subshell\",\"redirect\":1}}",
            false,
            1,
        ),
        (
            b"{\"script\":\"\",\"latitude\":{\"last\":\"current\",\"redirect\":77}}",
            true,
            77,
        ),
    ];
    for (bytes, last_current, redirect) in table {
        let world = latitude(rt.alloc(), last_current, redirect)?;
        assert!(rt; is_job(rt.alloc(), bytes, b"", world)?);
    }
    Ok(())
}

/// A script has as many bytes as the limit at most, however many the JSON has.
#[test]
fn scripts_reach_the_limit(rt: HostRuntime) -> Result<(), Fail> {
    let job: &[u8] = b"{\"script\":\"\xc3\xa4\\u00ff\\n\"}";
    assert!(rt; matches!(read(rt.alloc(), job, 3), Ok(_)));
    let pointer = Text::copy(rt.alloc(), b"/script")?;
    assert!(rt; read(rt.alloc(), job, 2) == Err(JobFault::BadWorld(pointer, Reason::TooLong)));
    assert!(rt; matches!(read(rt.alloc(), b"{\"script\":\"\"}", 0), Ok(_)));
    Ok(())
}
