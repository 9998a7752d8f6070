// Why a plan has no boxes.
ghost use Rattle.std.specs.Prelude.{◌≡◌, ◌≤◌, ◌++◌, length};
ghost use Rattle.loading.specs.Loading.{trouble_text};
ghost use Rattle.loading.specs.declared.trouble.Trouble.TheVariants.{Refused};

use pages::{PAGE, Page};
use rules::Refusal;
use wording::put_place;

// Why a file is of no use: it cannot be read, or it is refused.
#[derive(Clone, Copy)]
pub enum Trouble {
    Unread,
    Refused(Refusal),
}

impl From<Refusal> for Trouble {
    ghost from_gives = { λ why trouble. trouble ≡ Refused why };

    fn from(why: Refusal) -> Trouble {
        Trouble::Refused(why)
    }
}

// The trouble with the file of the graph, or with that of the places.
#[derive(Clone, Copy)]
pub enum Unusable {
    Graph(Trouble),
    Places(Trouble),
}

// The line of a trouble, with an end that may name the file, in the place of what stood on the page.
#[tactic(auto, unfolding(crate::specs::Loading::trouble_text, scan::specs::Ascii::bytes))]
pub fn put_trouble(page: &mut Page<PAGE>, trouble: Trouble, end: &[u8])
    requires { length end.now ≤ 100 }
    ensures text { page.new ≡ trouble_text trouble ++ end.now }
    ensures few { length page.new ≤ 400 }
{
    page.clear();
    match trouble {
        Trouble::Unread => page.put(b"refused 0 0"),
        Trouble::Refused(why) => put_place(page, why),
    }
    page.put(end);
}
