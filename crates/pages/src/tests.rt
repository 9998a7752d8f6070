// Numbers on a page: the machine's, and one of a crate's own.
ghost use Rattle.std.specs.Prelude.{◌++◌, ◌∷◌, []};
ghost use Rattle.scan.specs.Decimal.{decimal};

use crate::{Number, Page, Short};

// Full hours, spelt as `12h` on a page of their own.
#[derive(Clone, Copy)]
struct Hours(u8);

impl Number for Hours {
    ghost spelt = { λ h. decimal h.0 ++ (104 ∷ []) };

    ghost most = { 4 };

    fn spell(self) -> Page<20> {
        let mut page = Page::new();
        page.put_number(self.0);
        page.put(b"h");
        page
    }
}

#[test]
fn a_number_on_a_page_of_its_own(rt: HostRuntime) {
    assert_eq!(rt; Hours(12).spell().text(), b"12h".as_slice());
    assert_eq!(rt; 4294967295u32.spell().text(), b"4294967295".as_slice());
    assert_eq!(rt; (-7i32).spell().text(), b"-7".as_slice());
    assert_eq!(rt; 0u8.on_page().text(), b"0".as_slice());
}

#[test]
fn numbers_after_one_another(rt: HostRuntime) {
    let mut page: Page<64> = Page::new();
    page.put_after(b"in ", Hours(12));
    page.put_after(b" at ", -2147483648i32);
    page.put_row(&[Hours(0), Hours(255)]);
    assert_eq!(rt; page.text(), b"in 12h at -2147483648 0h 255h".as_slice());
}

#[test]
fn a_number_at_the_front_of_bytes(rt: HostRuntime) {
    let mut bytes = [b'.'; 6];
    let long = Hours(12).spell_into(&mut bytes);
    assert_eq!(rt; (long, bytes), (3, *b"12h..."));
    let long = 255u8.spell_into(&mut bytes[1..]);
    assert_eq!(rt; (long, bytes), (3, *b"1255.."));
    let long = 7u8.put_into(&mut bytes);
    assert_eq!(rt; (long, bytes), (1, *b"7255.."));
}
