// The supervisor of one OTUk and the ODUk path in it: provisioning, step, mark, and reading an accepted trace.
#![tactic(auto)]

ghost use Rattle.std.specs.Prelude.{◌≡◌, cond, eqb, length, ◌+◌, Ok, Err, IfOk, OnOk, OnErr};
ghost use Rattle.answer.specs.Refusal.{said};
ghost use Rattle.answer.specs.declared.Refusal.TheVariants.{NameLength};
ghost use Rattle.causes.specs.Causes.{report_of};
ghost use Rattle.second.specs.Second.{closed_of, figures_of};
ghost use Rattle.settings.specs.Settings.{settings_refusal};
ghost use Rattle.supervisor.specs.Supervisor.{fresh_of, blank_supervisor, provisioned_as, step_refusal, stands_after, frame_of, mark_refusal, next_second, layer_at, trace_refusal};

use answer::{Refusal, test};
use causes::Report;
use frame::Layers;
use layer::Layer;
use second::Second;
use settings::{Options, Request, Settings};

// `seconds`: the seconds closed.
#[derive(Clone, Copy)]
pub struct Supervisor {
    pub settings: Settings,
    pub layers: Layers,
    pub second: Second,
    pub seconds: u32,
}

// A fresh supervisor under given settings.
fn fresh(settings: Settings) -> Supervisor
    ensures { result ≡ fresh_of settings }
{
    Supervisor {
        settings,
        layers: frame::fresh_layers(),
        second: second::fresh_second(),
        seconds: 0,
    }
}

// A supervisor that no provisioning made.
pub fn blank() -> Supervisor
    ensures { result ≡ blank_supervisor }
{
    let options = Options {
        thr: 1,
        degm: 2,
        mode: 0,
        disabled: false,
        names: [0; 32],
    };
    fresh(Settings {
        k: 1,
        section: options,
        path: options,
    })
}

// The names, where they are 32 bytes.
fn names_of(names: &[u8]) -> Result<[u8; 32], Refusal>
    ensures { result ≡ cond (eqb (length names.now) 32) (Ok names.now) (Err NameLength) }
{
    <[u8; 32]>::try_from(names).map_err(|_| Refusal::NameLength)
}

impl Supervisor {
    // A fresh supervisor, as provisioned.
    #[tactic(auto, unfolding(settings::specs::Settings::settings_refusal))]
    pub fn provision(
        k: u8,
        section: &Request,
        path: &Request,
        snames: &[u8],
        pnames: &[u8],
    ) -> Result<Supervisor, Refusal>
        ensures refusal { said result ≡ settings_refusal k section.now path.now snames.now pnames.now }
        ensures ok { IfOk result (λ s. s ≡ provisioned_as k section.now path.now snames.now pnames.now) }
    {
        settings::accepted(k, section, path, snames, pnames)?;
        let sn = names_of(snames)?;
        let pn = names_of(pnames)?;
        Ok(fresh(Settings {
            k,
            section: settings::options_of(section, sn),
            path: settings::options_of(path, pn),
        }))
    }

    // Whether a frame is accepted: the tests in the order of their numbers.
    // The overhead, flags and counts go one by one, as C hands them over, and are numbers of any size: refusals 1 to 3 (`step_refusal`) are of such. In a struct that holds
    // the lent bytes each clause would read `f.now.overhead.now` and `f.now.flags` (tried): no plainer.
    #[tactic(auto, unfolding(crate::specs::Supervisor::step_refusal))]
    fn takes(&self, overhead: &[u8], flags: u8, sm: u8, pm: u8) -> Result<(), Refusal>
        ensures { said result ≡ step_refusal self.now overhead.now flags sm pm }
    {
        test(overhead.len() == 64, Refusal::OverheadLength)?;
        test(flags <= 3, Refusal::UnknownFlags)?;
        test((sm <= 8) & (pm <= 8), Refusal::TooManyViolations)?;
        test(self.second.frames.0 < 400000, Refusal::Full)
    }

    // A frame that is accepted.
    #[tactic(auto, unfolding(crate::specs::Supervisor::frame_of, crate::specs::Supervisor::stands_after))]
    pub fn frame(&mut self, overhead: &[u8], flags: u8, sm: u8, pm: u8) -> Report
        ensures report { result ≡ report_of (stands_after self.old overhead.now flags) sm pm }
        ensures next { self.new ≡ frame_of self.old overhead.now flags sm pm }
    {
        let read = overhead::overhead_of(overhead);
        let standing = self.layers.advance(&self.settings, &read, flags);
        self.second.count(&standing, &read, sm, pm);
        causes::report_of(standing, sm, pm)
    }

    // One frame.
    pub fn step(&mut self, overhead: &[u8], flags: u8, sm: u8, pm: u8) -> Result<Report, Refusal>
        ensures refusal { said result ≡ step_refusal self.old overhead.now flags sm pm }
        ensures report { IfOk result (λ r. r ≡ report_of (stands_after self.old overhead.now flags) sm pm) }
        ensures ok { OnOk result (self.new ≡ frame_of self.old overhead.now flags sm pm) }
        ensures err { OnErr result (self.new ≡ self.old) }
    {
        self.takes(overhead, flags, sm, pm)?;
        Ok(self.frame(overhead, flags, sm, pm))
    }

    // A mark: the second is closed and the next one opened.
    #[tactic(auto, unfolding(crate::specs::Supervisor::mark_refusal, crate::specs::Supervisor::next_second))]
    pub fn mark(&mut self) -> Result<[u32; 22], Refusal>
        ensures refusal { said result ≡ mark_refusal self.old }
        ensures figures { IfOk result (λ f. f ≡ figures_of (self.old.seconds + 1) (closed_of self.old.second)) }
        ensures ok { OnOk result (self.new ≡ next_second self.old) }
        ensures err { OnErr result (self.new ≡ self.old) }
    {
        test(self.seconds < 4294967295, Refusal::Full)?;
        self.seconds += 1;
        let done = second::closed(self.second);
        frame::degrade(
            &mut self.layers.section.layer,
            &self.settings.section,
            done.section.near.0,
        );
        frame::degrade(
            &mut self.layers.path.layer,
            &self.settings.path,
            done.path.near.0,
        );
        self.second = second::fresh_second();
        Ok(second::figures(self.seconds, done))
    }

    // The layer of a number: 0 section, otherwise path. A number, and no enum: refusal 11 (`trace_refusal`) is of others.
    fn layer(&self, layer: u8) -> &Layer
        ensures { result.now ≡ layer_at self.now layer }
    {
        if layer == 0 {
            &self.layers.section.layer
        } else {
            &self.layers.path.layer
        }
    }

    // The accepted trace of a layer.
    #[tactic(auto, unfolding(crate::specs::Supervisor::trace_refusal))]
    pub fn trace(&self, layer: u8) -> Result<&[u8; 64], Refusal>
        ensures refusal { said result ≡ trace_refusal self.now layer }
        ensures ok { IfOk result (λ t. t.now ≡ (layer_at self.now layer).accepted) }
    {
        let l = self.layer(layer);
        test(layer <= 1, Refusal::UnknownLayer)?;
        test(l.known, Refusal::NoTrace)?;
        Ok(&l.accepted)
    }
}
