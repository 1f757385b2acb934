// Each command and each fault once, and the line of a figure.
use book_script::command::Command;
use book_script::fault::Malformed;
use book_script::line::{Figure, FigureLine};
use book_script::reader::Reader;
use std::test::Fail;

#[test]
fn reads_each_command(rt: HostRuntime) -> Result<(), Fail> {
    let mut reader = Reader::new(b"N\x05P\x01\x02OR\x03\x00\x01\x00\x02C\x04\x01\x03W\x05B\x06FM")?;
    assert_eq!(rt; reader.next()?, Some(Command::Start { order: 5 }));
    assert_eq!(rt; reader.next()?, Some(Command::Add { set: 258 }));
    assert_eq!(rt; reader.next()?, Some(Command::Open));
    assert_eq!(rt;
        reader.next()?,
        Some(Command::Rate {
            part: 3,
            rating: 65538,
        })
    );
    assert_eq!(rt;
        reader.next()?,
        Some(Command::Price {
            part: 4,
            price: 259,
        })
    );
    assert_eq!(rt; reader.next()?, Some(Command::Withdraw { part: 5 }));
    assert_eq!(rt; reader.next()?, Some(Command::PutBack { part: 6 }));
    assert_eq!(rt; reader.next()?, Some(Command::Figure));
    assert_eq!(rt; reader.next()?, Some(Command::Cuts));
    assert_eq!(rt; reader.next::<Command>()?, None);
    assert_eq!(rt; reader.place(), 22);
    Ok(())
}

#[test]
fn stays_at_a_fault(rt: HostRuntime) -> Result<(), Fail> {
    let mut reader = Reader::new(b"Oo")?;
    assert_eq!(rt; reader.next()?, Some(Command::Open));
    assert_eq!(rt; reader.next::<Command>(), Err(Malformed::Unknown));
    assert_eq!(rt; reader.place(), 1);
    let mut reader = Reader::new(b"P\x01")?;
    assert_eq!(rt; reader.next::<Command>(), Err(Malformed::Short));
    assert_eq!(rt; reader.place(), 0);
    Ok(())
}

#[test]
fn prints_a_figure(rt: HostRuntime) -> Result<(), Fail> {
    let figure = FigureLine(Figure {
        units: 2684354560,
        held: true,
    })
    .to_string(rt.alloc())?;
    assert_eq!(rt; figure.as_str(), "F 2684354560 1");
    Ok(())
}
