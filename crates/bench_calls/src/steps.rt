// A bind or a release, as the tests take them one after another.
use crate::calls;
use crate::calls::Told;
use accounts::sound::BenchWords;
use testing::say;

#[derive(Clone, Copy)]
pub enum Step {
    // Of a rule.
    Bind(u32),
    // Of a function.
    Release(u32),
}

impl Step {
    pub fn taken_on(self, bench: BenchWords) -> Told {
        match self {
            Step::Bind(rule) => calls::bind(bench, rule),
            Step::Release(function) => calls::release(bench, function),
        }
    }

    pub fn say(self, rt: &HostRuntime) {
        match self {
            Step::Bind(rule) => say::word(rt, b"    bind ", rule),
            Step::Release(function) => {
                let _ = print!(rt; "    release {function}");
            }
        }
    }
}
