// One call of a run.
ghost use Rattle.std.specs.Prelude.{◌≡◌};
ghost use Rattle.memory.specs.Lists.{lists};
ghost use Rattle.job.specs.Composites.{KeepsBelow};
ghost use Rattle.job.specs.Outcome.{state};
ghost use Rattle.run.specs.Steps.{shown, spent, OnOpenSteps, ShowsAnother};

use job::{Job, Kept, OpenComposite, VarComponent};
use memory::{Memory, Refusal, Span};

// A call on the open composite.
#[derive(Clone, Copy)]
pub enum OnOpen<'a> {
    Component(VarComponent<'a>),
    Close,
    Cancel,
}

// What a call was answered, and the token that is held afterwards, if any.
pub struct Step {
    pub answer: Result<(), Refusal>,
    pub open: Option<OpenComposite>,
}

impl Step {
    // After a call that looks at the token.
    fn shown(token: OpenComposite, answer: Result<(), Refusal>) -> Step
        ensures { result ≡ shown token answer }
    {
        Step {
            answer,
            open: Some(token),
        }
    }

    // After a call that spends the token, or hands it back.
    fn spent(answer: Result<(), Kept>) -> Step
        ensures { result ≡ spent answer }
    {
        match answer {
            Ok(()) => Step {
                answer: Ok(()),
                open: None,
            },
            Err(Kept { token, refusal }) => Step::shown(token, Err(refusal)),
        }
    }
}

// A call that shows a token.
pub fn on_open(job: &mut Job, mem: &mut Memory<'_>, token: OpenComposite, call: OnOpen<'_>) -> Step
    ensures outcome { OnOpenSteps job.old (lists mem.old) token call.entry result (state job.new (lists mem.new)) }
    ensures keeps { KeepsBelow job.old (lists mem.old) job.new (lists mem.new) }
{
    match call {
        OnOpen::Component(component) => {
            let answer = job.component(mem, &token, component);
            Step::shown(token, answer)
        }
        OnOpen::Close => Step::spent(job.close(mem, token)),
        OnOpen::Cancel => Step::spent(job.cancel(mem, token)),
    }
}

// A call on the open composite where none is open. It shows the token of another job's composite, so that it goes through the same
// checks as any other and is answered by the first that refuses.
pub fn unopened(job: &mut Job, mem: &mut Memory<'_>, call: OnOpen<'_>) -> Result<(), Refusal>
    ensures outcome { ShowsAnother job.old (lists mem.old) call.entry result (state job.new (lists mem.new)) }
    ensures keeps { KeepsBelow job.old (lists mem.old) job.new (lists mem.new) }
{
    let number = if job.number() == 0 { 1 } else { 0 };
    let mut other = Job::new(number);
    let mut composites = [Span { place: 0, count: 0 }];
    let mut scratch = Memory {
        coordinates: &mut [],
        regions: &mut [],
        values: &mut [],
        entries: &mut [],
        sets: &mut [],
        pairs: &mut [],
        components: &mut [],
        composites: &mut composites,
        axis_lists: &mut [],
    };
    let token = other.begin(&mut scratch).unwrap();
    let Step { answer, open } = on_open(job, mem, token, call);
    let token = open.unwrap();
    match other.cancel(&scratch, token) {
        Ok(()) => answer,
        Err(_kept) => unreachable!(),
    }
}
