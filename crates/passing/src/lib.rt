// Which arcs a search may use: the tests that are asked of each arc that it looks at.
#![tactic(auto)]

ghost use Rattle.std.specs.Prelude.{◌≡◌, true, ◌≤◌, length, []};
ghost use Rattle.geometry.specs.Row.{coordinate};
ghost use Rattle.walks.specs.Rows.{at};
ghost use Rattle.passing.specs.Asking.{place_if, module_if, Told, tests_toward, no_tests, BoxRoom, MaskRoom, Room, held_b, lit_b, keeps};

use rules::Asked;

// What is lent of the nodes: their places and their modules.
#[derive(Clone, Copy)]
pub struct Nodes<'a> {
    pub x: &'a [i32],
    pub y: &'a [i32],
    pub modules: &'a [u32],
}

// What may be lent beside a network, by which a search tells where an arc leads. A call reads only what it is asked to go by.
#[derive(Clone, Copy)]
pub struct Signs<'a> {
    pub nodes: Nodes<'a>,
    pub boxes: &'a [i32],
    pub masks: &'a [u32],
}

// A place that an arc's box is to hold.
#[derive(Clone, Copy)]
pub struct Place {
    pub x: i32,
    pub y: i32,
}

// What is asked of an arc, beside being open: that its box holds a place, that its mask has a module.
#[derive(Clone, Copy)]
pub struct Tests {
    pub place: Option<Place>,
    pub module_number: Option<u32>,
}

// The tests, and the boxes and masks that they are asked of.
#[derive(Clone, Copy)]
pub struct Sieve<'a> {
    pub tests: Tests,
    pub boxes: &'a [i32],
    pub masks: &'a [u32],
}

impl<'a> Nodes<'a> {
    // The place of node `t`, if boxes are asked.
    fn place(self, asked: bool, t: usize) -> Option<Place>
        requires { (1 ≤ t) × (asked ≡ true → t ≤ length self.x.now) × (asked ≡ true → t ≤ length self.y.now) }
        ensures { result ≡ place_if asked (coordinate self.entry.x.now t) (coordinate self.entry.y.now t) }
    {
        if !asked {
            return None;
        }
        Some(Place {
            x: self.x[t - 1],
            y: self.y[t - 1],
        })
    }

    // The module of node `t`, if masks are asked.
    fn module(self, asked: bool, t: usize) -> Option<u32>
        requires { (1 ≤ t) × (asked ≡ true → t ≤ length self.modules.now) }
        ensures { result ≡ module_if asked (at self.entry.modules.now t) }
    {
        if !asked {
            return None;
        }
        Some(self.modules[t - 1])
    }

    // The tests asked, toward node `t`.
    pub fn tests_toward(self, asked: Asked, t: usize) -> Tests
        requires { Told asked self.x.now self.y.now self.modules.now t }
        ensures { result ≡ tests_toward asked self.entry.x.now self.entry.y.now self.entry.modules.now t }
    {
        Tests {
            place: self.place(asked.boxes, t),
            module_number: self.module(asked.masks, t),
        }
    }
}

impl<'a> Signs<'a> {
    // The boxes and coordinates alone, for who has no modules.
    pub fn of_boxes(x: &'a [i32], y: &'a [i32], boxes: &'a [i32]) -> Signs<'a>
        ensures places { (result.nodes.x.now ≡ x.entry.now) × (result.nodes.y.now ≡ y.entry.now) }
        ensures boxes { result.boxes.now ≡ boxes.entry.now }
        ensures no_masks { (result.nodes.modules.now ≡ []) × (result.masks.now ≡ []) }
    {
        Signs {
            nodes: Nodes { x, y, modules: &[] },
            boxes,
            masks: &[],
        }
    }

    // The sieve of what is asked, toward node `t`.
    pub fn toward(self, asked: Asked, t: usize) -> Sieve<'a>
        requires { Told asked self.nodes.x.now self.nodes.y.now self.nodes.modules.now t }
        ensures tests { result.tests ≡ tests_toward asked self.entry.nodes.x.now self.entry.nodes.y.now self.entry.nodes.modules.now t }
        ensures boxes { result.boxes.now ≡ self.entry.boxes.now }
        ensures masks { result.masks.now ≡ self.entry.masks.now }
    {
        Sieve {
            tests: self.nodes.tests_toward(asked, t),
            boxes: self.boxes,
            masks: self.masks,
        }
    }
}

impl<'a> Sieve<'a> {
    // Nothing is asked: every open arc may be used.
    pub fn open() -> Sieve<'a>
        ensures { result.tests ≡ no_tests }
    {
        Sieve {
            tests: Tests {
                place: None,
                module_number: None,
            },
            boxes: &[],
            masks: &[],
        }
    }

    // Whether an arc's box holds the place, if that is asked.
    fn holds(self, e: usize) -> bool
        requires { (1 ≤ e) × BoxRoom self.tests.place e self.boxes.now }
        ensures { result ≡ held_b self.entry.tests.place self.entry.boxes.now e }
    {
        match self.tests.place {
            None => true,
            Some(place) => geometry::holds(self.boxes, e, place.x, place.y),
        }
    }

    // Whether an arc's mask has the module, if that is asked.
    fn lights(self, e: usize) -> bool
        requires { (1 ≤ e) × MaskRoom self.tests.module_number e self.masks.now }
        ensures { result ≡ lit_b self.entry.tests.module_number self.entry.masks.now e }
    {
        match self.tests.module_number {
            None => true,
            Some(j) => masks::has(self.masks[e - 1], j),
        }
    }

    // Whether a search may use arc `e`: it is open, and passes what is asked.
    pub fn passes(self, closures: &[u8], e: usize) -> bool
        requires { (1 ≤ e) × (e ≤ length closures.now) × Room self.tests e self.boxes.now self.masks.now }
        ensures { result ≡ keeps self.entry.tests closures.now self.entry.boxes.now self.entry.masks.now e }
    {
        closures[e - 1] == 0 && self.holds(e) && self.lights(e)
    }
}
