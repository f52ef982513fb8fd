use script_maker::make_script;
use script_text::{ScanLine, Script};
use script_writer::write_script;
use std::test::Fail;
use tri_base::{Leg, Text};

#[test]
fn a_script_is_made_from_a_number(rt: HostRuntime) -> Result<(), Fail> {
    let script = make_script(rt.alloc(), 1, 1)?;
    let mut text = Text::new(rt.alloc());
    write_script(rt.alloc(), &script, &mut text)?;
    assert_eq!(rt; text.len(), 25348);
    let end = b"END_PROGRAM\nENDTEXT\nSCANS 1\nAT 1\nSET D8 1\nSET A8 1512\nEND\n";
    assert!(rt; text.bytes().ends_with(end));
    Ok(())
}

/// Whether a leg is replaced in a scan.
fn is_replaced(script: &Script, scan: u32, leg: Leg) -> bool {
    for moment in script.moments() {
        if moment.scan() == scan {
            for line in moment.lines() {
                if let ScanLine::Replace(named) = line {
                    return *named == leg;
                }
            }
        }
    }
    false
}

#[test]
fn the_longest_script_of_the_greatest_number_is_made(rt: HostRuntime) -> Result<(), Fail> {
    let script = make_script(rt.alloc(), 4_294_967_295, 2_000)?;
    let download = script.download(1_990).map(|text| text.len());
    assert!(rt; script.scans() == 2_000 && download == Some(16_384));
    assert!(rt; is_replaced(&script, 10, Leg::A) && is_replaced(&script, 1_010, Leg::B));
    Ok(())
}
