use crate::{Answer, Bounds, End, Latitude, Outside, Row, RowInput, RowKey, TextMap, World};
use span_text::{List, Memory, Text};
use std::alloc::Global;
use std::test::Fail;

pub fn text(alloc: Global, bytes: &str) -> Result<Text, Memory> {
    Text::copy(alloc, bytes.as_bytes())
}

pub fn texts(alloc: Global, all: &[&str]) -> Result<List<Text>, Memory> {
    let mut list = List::new(alloc);
    for one in all {
        list.push(text(alloc, one)?)?;
    }
    Ok(list)
}

fn answer(alloc: Global, status: u8, out: &str, err: &str) -> Result<Answer, Memory> {
    Ok(Answer {
        status,
        out: text(alloc, out)?,
        err: text(alloc, err)?,
    })
}

fn row(key: RowKey, input: RowInput, answers: List<Answer>) -> Row {
    Row {
        key,
        input,
        answers,
    }
}

/// `cat` takes all input and answers in turn, and `cat x` is a row behind it.
fn rows_of_cat(alloc: Global) -> Result<List<Row>, Memory> {
    let mut answers = List::new(alloc);
    answers.push(answer(alloc, 0, "A", "")?)?;
    answers.push(answer(alloc, 3, "B", "e")?)?;
    let mut other = List::new(alloc);
    other.push(answer(alloc, 9, "other", "")?)?;
    let mut rows = List::new(alloc);
    rows.push(row(RowKey::Name(text(alloc, "cat")?), RowInput::Any, answers))?;
    let whole = texts(alloc, &["cat", "x"])?;
    rows.push(row(RowKey::Whole(whole), RowInput::Nothing, other))?;
    Ok(rows)
}

/// The rows of `cat`, and `sum`, which wants the input `in`.
fn rows(alloc: Global) -> Result<List<Row>, Memory> {
    let mut rows = rows_of_cat(alloc)?;
    let mut answers = List::new(alloc);
    answers.push(answer(alloc, 0, "7", "")?)?;
    let input = RowInput::Exactly(text(alloc, "in")?);
    rows.push(row(RowKey::Name(text(alloc, "sum")?), input, answers))?;
    Ok(rows)
}

/// A world with these files, of which the later ones stand behind.
pub fn world_of(alloc: Global, paths: &[(&str, &str)], stdin: &str) -> Result<World, Memory> {
    let mut files = List::new(alloc);
    for file in paths {
        files.push((text(alloc, file.0)?, text(alloc, file.1)?))?;
    }
    Ok(World {
        args: texts(alloc, &["script"])?,
        env: List::new(alloc),
        files,
        rows: rows(alloc)?,
        stdin: text(alloc, stdin)?,
        bounds: Bounds {
            turns: 10,
            depth: 3,
        },
        latitude: Latitude {
            last_current: false,
            redirect: 1,
        },
    })
}

fn world(alloc: Global) -> Result<World, Memory> {
    world_of(alloc, &[("b", "two"), ("a", "one")], "in")
}

#[test]
fn a_map_is_kept_in_the_order_of_its_keys(rt: HostRuntime) -> Result<(), Fail> {
    let mut map = TextMap::new(rt.alloc());
    for key in ["b", "", "ab", "a", "b"] {
        map.insert(text(rt.alloc(), key)?, key.len())?;
    }
    map.insert(text(rt.alloc(), "ab")?, 7)?;
    assert_eq!(rt; map.get(b"ab"), Some(&7));
    assert_eq!(rt; map.get(b"c"), None);
    let entries = map.into_list();
    let keys = ["", "a", "ab", "b"];
    assert_eq!(rt; entries.len(), keys.len());
    for (i, key) in keys.iter().enumerate() {
        assert!(rt; i < entries.len());
        assert_eq!(rt; entries.at(i).0.bytes(), key.as_bytes());
    }
    Ok(())
}

#[test]
fn the_first_row_that_fits_answers_in_turn(rt: HostRuntime) -> Result<(), Fail> {
    let world = world(rt.alloc())?;
    let (mut outside, fds) = Outside::start(rt.alloc(), &world)?;
    let env = List::new(rt.alloc());
    let argv = texts(rt.alloc(), &["cat", "x"])?;
    assert_eq!(rt; outside.call(&argv, &env, &fds)?, 0);
    assert_eq!(rt; outside.call(&argv, &env, &fds)?, 3);
    assert_eq!(rt; outside.call(&argv, &env, &fds)?, 3);
    let report = outside.finish(End::Ended(4), 2);
    assert_eq!(rt; report.out.bytes(), b"ABB".as_slice());
    assert_eq!(rt; report.err.bytes(), b"ee".as_slice());
    assert_eq!(rt; report.turns, 2);
    Ok(())
}
