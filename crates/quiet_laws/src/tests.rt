//! Commands over a world that counts no failure. It tells its content after each.
use crate::run_quietly;
use quiet_world::Quiet;
use std::alloc::Global;
use std::process::Abort;
use std::test::Fail;

const DATA: &str = "<urn:a> <urn:p> <urn:b> .\n<urn:b> <urn:p> <urn:c> .\n";

const QUERY: &str = "SELECT * { ?x <urn:p> ?y . ?y <urn:p> ?z }";

const ANSWER: &str = "?x\t?y\t?z\n<urn:a>\t<urn:b>\t<urn:c>\n";

/// Runs a command over the data, the query and a file `i` that is no index, and compares the status and what is written.
fn ends(
    rt: &impl Abort,
    alloc: Global,
    words: &[&str],
    wanted: u8,
    text: &str,
    line: &str,
) -> Result<(), Fail> {
    let mut owned = Vec::new(alloc);
    for word in words {
        owned.push(String::from_str(alloc, word)?)?;
    }
    let mut world = Quiet::new(alloc);
    world.put_file("d", DATA.as_bytes())?;
    world.put_file("q", QUERY.as_bytes())?;
    world.put_file("i", b"BITMATLB")?;
    let status = run_quietly(alloc, owned.as_slice(), &mut world);
    assert!(rt; status == wanted, "{line}");
    assert!(rt; world.printed() == text.as_bytes(), "{line}");
    assert!(rt; world.complained() == line.as_bytes(), "{line}");
    assert!(rt; world.tells(), "{line}");
    Ok(())
}

#[test]
fn commands_end_as_over_any_world(rt: HostRuntime) -> Result<(), Fail> {
    let alloc = rt.alloc();
    ends(&rt, alloc, &["ask", "d", "q", "tsv"], 0, ANSWER, "")?;
    ends(
        &rt,
        alloc,
        &["load", "d", "i"],
        0,
        "stored triples 2 bytes 272\n",
        "",
    )?;
    ends(
        &rt,
        alloc,
        &["ask", "q", "q", "tsv"],
        2,
        "",
        "data refused: line 1\n",
    )?;
    ends(
        &rt,
        alloc,
        &["query", "i", "q", "tsv"],
        4,
        "",
        "index refused: header\n",
    )?;
    ends(
        &rt,
        alloc,
        &["check", "i"],
        4,
        "",
        "index refused: header\n",
    )?;
    ends(
        &rt,
        alloc,
        &["ask", "e", "q", "tsv"],
        5,
        "",
        "read fault: e\n",
    )?;
    ends(&rt, alloc, &["check", "e"], 5, "", "read fault: e\n")
}

#[test]
fn a_loaded_index_is_asked_and_checked(rt: HostRuntime) -> Result<(), Fail> {
    let alloc = rt.alloc();
    let mut loading = Vec::new(alloc);
    for word in ["load", "d", "i"] {
        loading.push(String::from_str(alloc, word)?)?;
    }
    let mut asking = Vec::new(alloc);
    for word in ["query", "i", "q", "tsv"] {
        asking.push(String::from_str(alloc, word)?)?;
    }
    let mut world = Quiet::new(alloc);
    world.put_file("d", DATA.as_bytes())?;
    world.put_file("q", QUERY.as_bytes())?;
    assert!(rt; run_quietly(alloc, loading.as_slice(), &mut world) == 0);
    assert!(rt; world.file("i").map(|index| index.len()) == Some(272));
    assert!(rt; run_quietly(alloc, asking.as_slice(), &mut world) == 0);
    assert!(rt; world.printed().ends_with(ANSWER.as_bytes()));
    assert!(rt; world.complained().is_empty() && world.tells());
    Ok(())
}
