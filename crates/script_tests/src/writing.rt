use script_text::{Script, ScriptFault, read_script};
use script_writer::write_script;
use std::alloc::Global;
use std::test::Fail;
use tri_base::{Text, push_bytes};

/// Reads bytes as a script; a test's are never too many.
fn read(alloc: Global, bytes: &[u8]) -> Result<Script, ScriptFault> {
    let mut text = Text::new(alloc);
    push_bytes(&mut text, bytes).map_err(|_| ScriptFault::NoMemory)?;
    read_short(alloc, &text)
}

fn read_short(alloc: Global, text: &Text) -> Result<Script, ScriptFault> {
    if text.len() > 100_000 {
        return Err(ScriptFault::NoMemory);
    }
    read_script(alloc, text)
}

#[test]
fn a_script_is_written_in_one_way(rt: HostRuntime) -> Result<(), Fail> {
    let script = read(
        rt.alloc(),
        b"# A pump.\r\nTRICON 1\n  POINT DI start \r\nPOINT AI press 0 04095 16\nPOINT DO Pump\n\
          POINT AO VALVE -5 5\nTEXT\t\nPROGRAM P\r\n\n# kept\nENDTEXT\nSCHEDULE ABC\nSCHEDULE CA\n\
          SCANS 003\nAT 1\nSET start 1 1 01\nASK 0001fF\nSET PRESS 1 2 -0\nTIME 100 110 400\n\
          POKE B 4095 -7\nREAD B LEFT 1 100\nDOWNLOAD\nNEW\nENDTEXT\nMUTE C\nRENAME a B\n\
          REPLACE B\nSWAP B\nENDTEXT\nRESULT B 3\nDRIVE B\nRENAME b c\nAT 3\nEND\n",
    )?;
    let mut text = Text::new(rt.alloc());
    push_bytes(&mut text, b"> ")?;
    write_script(rt.alloc(), &script, &mut text)?;
    let written = b"> TRICON 1\nPOINT DI START\nPOINT AI PRESS 0 4095 16\nPOINT DO PUMP\n\
        POINT AO VALVE -5 5\nTEXT\nPROGRAM P\n\n# kept\nENDTEXT\nSCHEDULE ABCCA\nSCANS 3\n\
        AT 1\nSET START 1\nSET PRESS 1 2 0\nTIME 100 110 400\nPOKE B 4095 -7\nREAD B LEFT 1 100\n\
        DOWNLOAD\nNEW\nENDTEXT\nRENAME A B\nRENAME B C\nMUTE C\nREPLACE B\nSWAP B\nENDTEXT\n\
        RESULT B 3\nDRIVE B\nASK 0001FF\nAT 3\nEND\n";
    assert_eq!(rt; text.bytes(), written.as_slice());
    Ok(())
}
