// A day's list on a plan with its boxes.
ghost use Rattle.std.specs.Prelude.{◌≤◌, length, OnOk};
ghost use Rattle.files.specs.File.{Within, held_in, held_of};
ghost use Rattle.loading.specs.Loading.{plan_of};
ghost use Rattle.journeys.specs.Prints.{PrintsDay};
ghost use Rattle.journeys.specs.Steps.{Runs};

use daylist::{Totals, answer_all};
use dimacs::read_p2p;
use files::contents;
use listing::journeys::{put_journeys, put_totals};
use loading::{Plan, Trouble, put_trouble};
use pages::{PAGE, Page};

// A list's queries, their lengths, and how many there are.
#[derive(Drop)]
struct Journeys {
    count: u32,
    sources: [u32; 256],
    targets: [u32; 256],
    lengths: [u32; 256],
}

impl Journeys {
    // Runs what was read of `day.p2p`: the queries are read and answered.
    fn run(&mut self, plan: &Plan, day: Option<&[u8]>) -> Result<Totals, Trouble>
        ensures runs { Runs (plan_of plan.now) self.old (held_of day.entry) result self.new }
        ensures few { OnOk result (self.new.count ≤ 256) }
    {
        let text = day.ok_or(Trouble::Unread)?;
        self.count = read_p2p(
            text,
            plan.sizes.n,
            &self.lengths,
            &mut self.sources,
            &mut self.targets,
        )?;
        let totals = answer_all(
            text,
            plan.network(),
            &plan.x,
            &plan.y,
            &plan.boxes,
            &mut self.lengths,
        )?;
        Ok(totals)
    }
}

// What is printed of a day's list, of what was read of it.
pub fn list_day(page: &mut Page<PAGE>, plan: &Plan, text: &[u8], day: Option<usize>)
    requires { Within (length text.now) day }
    ensures { PrintsDay (plan_of plan.now) (held_in text.now day) page.new }
{
    let mut journeys = Journeys {
        count: 0,
        sources: [0; 256],
        targets: [0; 256],
        lengths: [0; 256],
    };
    match journeys.run(plan, contents(text, day)) {
        Ok(totals) => {
            put_journeys(
                page,
                journeys.count as usize,
                &journeys.sources,
                &journeys.targets,
                &journeys.lengths,
            );
            put_totals(page, totals.found, totals.none, totals.sum);
        }
        Err(trouble) => put_trouble(page, trouble, b" day.p2p\n"),
    }
}
