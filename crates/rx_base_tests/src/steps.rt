ghost use Rattle.std.specs.Prelude.{◌≡◌};

use rx_base::{Counter, Tally};
use rx_units::Reader;
use std::marker::Brand;
use std::sync::ledger::{Blank, Ledger};
use std::test::Fail;

/// What a counter tells to which three steps were added, and then one; and what it tells after calls that move over some of fourteen units, and one that
/// moves over none. And what each of these calls ate.
fn counted<L: Ledger>(reader: &mut Reader<'_>, blank: Blank) -> ([u64; 2], [bool; 5])
    requires name { blank.name ≡ L.name }
    requires parts { blank.parts ≡ L.parts }
    requires one { blank.parts ≡ 1 }
{
    let mut tally = Tally::<L>::new(blank);
    tally.add(3);
    tally.tick();
    let added = tally.total();
    reader.advance_counted(&mut tally);
    reader.skip_counted(2, &mut tally);
    let eaten = [
        reader.eat_counted('e', &mut tally),
        reader.eat_counted('d', &mut tally),
        reader.eat2_counted('e', 'f', &mut tally),
        reader.eat3_counted('g', 'h', 'i', &mut tally),
        reader.eat4_counted('j', 'k', 'l', 'm', &mut tally),
    ];
    ([added, tally.total()], eaten)
}

#[test]
fn steps_are_counted(rt: HostRuntime) -> Result<(), Fail> {
    let mut reader = Reader::initialize(rt.alloc(), "abcdefghijklmn", true, false)?;
    let counted = counted::<Brand>(&mut reader, Blank::new(1));
    assert_eq!(rt; counted, ([4, 17], [false, true, true, true, true]));
    Ok(())
}
