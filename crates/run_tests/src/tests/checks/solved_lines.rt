//! Tables without a plan in, the same with one out, and what the check of them replies: costs are worked out by hand. Which
//! plan and which prices stand in a line is open, so no script can have these lines.

use line_engine::LineLimit;
use std::alloc::{AllocError, Global};
use std::test::Fail;
use table_lines::{check_run, solve_run};
use test_samples::{MemorySink, MemorySource, numbers_list};

/// What is replied to an input: the solved lines.
fn solved(alloc: Global, input: &[u8]) -> Result<Vec<u8>, Fail> {
    let mut reader = MemorySource::new(input, usize::MAX);
    let mut writer = MemorySink::new(alloc, usize::MAX);
    solve_run(alloc, LineLimit::standard(), &mut reader, &mut writer)?;
    Ok(Vec::from_slice(alloc, writer.bytes())?)
}

/// Whether the check of the solved input replies so.
fn is_optimal(alloc: Global, input: &[u8], replies: &str) -> Result<bool, Fail> {
    let output = solved(alloc, input)?;
    let mut reader = MemorySource::new(&output, usize::MAX);
    let mut writer = MemorySink::new(alloc, usize::MAX);
    check_run(alloc, LineLimit::standard(), &mut reader, &mut writer)?;
    Ok(writer.bytes() == replies.as_bytes())
}

/// Whether an input, where lines have so many bytes at most, is replied to so, and so many of the replies are refusals.
fn is_replied(
    alloc: Global,
    most: u32,
    input: &[u8],
    refused: u64,
    output: &[u8],
) -> Result<bool, Fail> {
    let limit = LineLimit::new(most).unwrap_or(LineLimit::standard());
    let mut reader = MemorySource::new(input, usize::MAX);
    let mut writer = MemorySink::new(alloc, usize::MAX);
    let count = solve_run(alloc, limit, &mut reader, &mut writer)?;
    Ok(count.refused == refused && writer.bytes() == output)
}

/// A table, and a line that is none.
const TWO_LINES: &[u8] =
    b"{\"wagons\":[\"338447961008\"],\"orders\":[\"O1\"],\"cells\":[[10]],\"penalties\":[50]}\n[]";

/// The table's line with its plan may have as many bytes as it has, and no fewer; then it is refused, and the run goes
/// on.
#[test]
fn a_plan_is_too_long(rt: HostRuntime) -> Result<(), Fail> {
    let alloc = rt.alloc();
    let both = solved(alloc, TWO_LINES)?;
    let last = b"{\"line\":2,\"refused\":\"22\"}\n".len();
    let most = both.len().saturating_sub(last + 1).min(65_536) as u32;
    assert!(rt; is_replied(alloc, most, TWO_LINES, 1, &both)?);
    let refused = b"{\"line\":1,\"refused\":\"92\"}\n{\"line\":2,\"refused\":\"22\"}\n";
    assert!(rt; is_replied(alloc, most.saturating_sub(1), TWO_LINES, 2, refused)?);
    Ok(())
}

/// Seven tables, two of them twice, the last without a line feed.
const TABLES: &str =
    r#"{"wagons":["338447961008","218124712173"],"orders":["O1","O2"],"cells":[[10,20],[15,null]],"penalties":[1000,1000]}
{"wagons":["338447961008"],"orders":["O1","O2"],"cells":[[10,20]],"penalties":[50,500]}
{"wagons":["338447961008"],"orders":["O1","O2"],"cells":[[10,20]],"penalties":[50,500]}
{"wagons":["338447961008","218124712173"],"orders":["O1"],"cells":[[10],[12]],"penalties":[100]}
{"wagons":[],"orders":["O1"],"cells":[],"penalties":[900]}
{"wagons":["338447961008"],"orders":["O1"],"cells":[[30]],"penalties":[30]}
{"wagons":["338447961008"],"orders":["O1"],"cells":[[30]],"penalties":[30]}"#;

#[test]
fn seven_tables(rt: HostRuntime) -> Result<(), Fail> {
    let costs =
        "1 optimal 35\n2 optimal 70\n3 optimal 70\n4 optimal 10\n5 optimal 900\n6 optimal 30\n7 optimal 30\n";
    assert!(rt; is_optimal(rt.alloc(), TABLES.as_bytes(), costs)?);
    Ok(())
}

/// So many times the same, parted by commas.
fn repeated(alloc: Global, item: &str, count: u32) -> Result<String, AllocError> {
    let mut text = String::new(alloc);
    for k in 0..count {
        text.push_str(if k == 0 { "" } else { "," })?;
        text.push_str(item)?;
    }
    Ok(text)
}

/// GLPK's transport example: Seattle has 350 cases and San Diego 600, New York wants 325 of them, Chicago 300 and Topeka
/// 275, over 2.5, 1.7, 1.8 and 2.5, 1.8, 1.4 thousand miles. Here a wagon takes 25 cases: 14 and 24 wagons, orders of 13,
/// 12 and 11, in hundreds of miles. By hand: Topeka is nearest to San Diego by 0.4, Chicago to Seattle by 0.1, and New
/// York is as far from both, so 11 * 14 + 12 * 17 + 13 * 25 = 683; GLPK answers 153.675 thousand dollars for 90 dollars
/// a case and thousand miles, which is 683 * 25 / 10 * 90 / 1000.
#[test]
fn transport(rt: HostRuntime) -> Result<(), Fail> {
    let alloc = rt.alloc();
    let numbers = numbers_list(alloc, 38)?;
    let seattle = repeated(alloc, "[25,17,18]", 14)?;
    let san_diego = repeated(alloc, "[25,18,14]", 24)?;
    let line = format!(in alloc;
        r#"{{"wagons":{numbers},"orders":["NEW-YORK","CHICAGO","TOPEKA"],"cells":[{seattle},{san_diego}],"penalties":[1000,1000,1000],"lacks":[13,12,11]}}"#
    )?;
    assert!(rt; is_optimal(alloc, line.as_bytes(), "1 optimal 683\n")?);
    Ok(())
}

/// Three wagons for an order of two wagons and one of one: 10 km and 20 km for the first order, 40 km for the second.
#[test]
fn lacks(rt: HostRuntime) -> Result<(), Fail> {
    let line =
        r#"{"wagons":["338447961008","218124712173","338447961040"],"orders":["O1","O2"],"cells":[[10,12],[20,30],[null,40]],"penalties":[100,100],"lacks":[2,1]}"#;
    assert!(rt; is_optimal(rt.alloc(), line.as_bytes(), "1 optimal 70\n")?);
    Ok(())
}

/// How a run over two lines ends where the reader fails behind so many bytes, and what it wrote: the line of the stop.
fn stops_reading(alloc: Global, given: usize, output: &[u8]) -> Option<u64> {
    let mut reader = MemorySource::failing(b"{\n[]\n", 1, given, true);
    let mut writer = MemorySink::new(alloc, usize::MAX);
    match solve_run(alloc, LineLimit::standard(), &mut reader, &mut writer) {
        Err(fault) if fault.number() == 93 && writer.bytes() == output => fault.line(),
        _ => None,
    }
}

/// The same where the writer fails behind so many bytes.
fn stops_writing(alloc: Global, room: usize, output: &[u8]) -> Option<u64> {
    let mut reader = MemorySource::new(b"{\n[]\n", 1);
    let mut writer = MemorySink::failing(alloc, 1, room, true);
    match solve_run(alloc, LineLimit::standard(), &mut reader, &mut writer) {
        Err(fault) if fault.number() == 94 && writer.bytes() == output => fault.line(),
        _ => None,
    }
}

#[test]
fn failures(rt: HostRuntime) {
    let alloc = rt.alloc();
    assert_eq!(rt; stops_reading(alloc, 1, b""), Some(1));
    assert_eq!(rt;
        stops_reading(alloc, 3, b"{\"line\":1,\"refused\":\"21\"}\n"),
        Some(2)
    );
    assert_eq!(rt; stops_writing(alloc, 8, b"{\"line\":"), Some(1));
    assert_eq!(rt;
        stops_writing(alloc, 33, b"{\"line\":1,\"refused\":\"21\"}\n{\"line\""),
        Some(2)
    );
}
