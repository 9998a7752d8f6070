// A refusal as the paper tells it.
ghost use Rattle.std.specs.Prelude.{◌≡◌, ◌≤◌, take};
ghost use Rattle.rules.specs.Places.{places};

// A refusal's number, and its values, which stand first of three places; the other places hold 0.
#[derive(Drop)]
pub struct Told {
    pub number: u32,
    count: usize,
    places: [u32; 3],
    ghost few: { count ≤ 3 },
}

impl Told {
    pub fn values(&self) -> &[u32]
        ensures { result.now ≡ take self.now.count self.now.places }
    {
        &self.places[..self.count]
    }
}

// A number with its values.
pub fn tell<const N: usize>(number: u32, values: [u32; N]) -> Told
    requires { N ≤ 3 }
    ensures told_number { result.number ≡ number }
    ensures told_values { take result.count result.places ≡ values.entry }
    ensures told_places { result.places ≡ places values.entry }
{
    let mut places = [0; 3];
    places[..N].copy_from_slice(&values);
    Told {
        number,
        count: N,
        places,
    }
}
