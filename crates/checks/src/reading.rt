// Each command, each fault and each line once.
use script::command::Command;
use script::fault::Malformed;
use script::line::{FaultLine, RowKind, RowLine};
use script::reader::Reader;
use std::test::Fail;

#[test]
fn reads_each_command(rt: HostRuntime) -> Result<(), Fail> {
    let mut reader = Reader::new(b"N\x05P\x01\x02OM")?;
    assert_eq!(rt; reader.next()?, Some(Command::Start { order: 5 }));
    assert_eq!(rt; reader.next()?, Some(Command::Add { set: 258 }));
    assert_eq!(rt; reader.next()?, Some(Command::Open));
    assert_eq!(rt; reader.next()?, Some(Command::Cuts));
    assert_eq!(rt; reader.next::<Command>()?, None);
    assert_eq!(rt; reader.place(), 7);
    Ok(())
}

#[test]
fn stays_at_a_fault(rt: HostRuntime) -> Result<(), Fail> {
    let mut reader = Reader::new(b"Oo")?;
    assert_eq!(rt; reader.next()?, Some(Command::Open));
    assert_eq!(rt; reader.next::<Command>(), Err(Malformed::Unknown));
    assert_eq!(rt; reader.place(), 1);
    let mut reader = Reader::new(b"P\x01")?;
    assert_eq!(rt; reader.next::<Command>(), Err(Malformed::Short));
    assert_eq!(rt; reader.place(), 0);
    Ok(())
}

#[test]
fn takes_no_more_than_the_longest(rt: HostRuntime) {
    let bytes = [b'O'; 4097];
    assert!(rt; Reader::new(&bytes[..4096]).is_ok());
    assert_eq!(rt; Reader::new(&bytes).err(), Some(Malformed::Long));
}

#[test]
fn prints_each_line(rt: HostRuntime) -> Result<(), Fail> {
    let cuts = RowLine {
        kind: RowKind::Cuts,
        values: &[3u16, 14, 21, 24],
    }
    .to_string(rt.alloc())?;
    assert_eq!(rt; cuts.as_str(), "M 3 14 21 24");
    let none: RowLine<'_, u16> = RowLine {
        kind: RowKind::Cuts,
        values: &[],
    };
    let none = none.to_string(rt.alloc())?;
    assert_eq!(rt; none.as_str(), "M");
    let fault = FaultLine {
        place: 31,
        number: 14,
    }
    .to_string(rt.alloc())?;
    assert_eq!(rt; fault.as_str(), "! 31 14");
    Ok(())
}
