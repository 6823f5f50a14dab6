// The page map: what each span is.
ghost use Rattle.std.specs.Prelude.{◌≡◌, ℕ, ◌<◌, not, map, Some};
ghost use Rattle.model.specs.declared.Span.TheVariants.{Idle};
ghost use Rattle.bank.specs.Tables.{put};
ghost use Rattle.model.specs.Geometry.{desktop};
ghost use Rattle.model.specs.State.{frame_of as frame_in, is_idle as idle, after};
ghost use Rattle.model.specs.Calls.{tally, lowest_idle as lowest, spans_after};
ghost use Rattle.tables.specs.Views.{spans_of};

use model::{Event, Span};

#[derive(Drop)]
pub struct Spans {
    table: [Span; 128],
}

// Changes a span in place, as an event asks. (One match, and no closure for each event, since events are data: they are
// passed on, and the definitions speak of them.)
pub fn apply(span: &mut Span, event: Event)
    ensures { span.new ≡ after event span.old }
{
    match (*span, event) {
        (Span::Idle, Event::Open(frame)) => *span = Span::Home(frame),
        (Span::Home(frame) | Span::Alias(frame), Event::Merge(source, destination))
            if frame == source => {
            *span = Span::Alias(destination);
        }
        (Span::Home(frame) | Span::Alias(frame), Event::Empty(gone)) if frame == gone => {
            *span = Span::Idle;
        }
        _ => {}
    }
}

// Whether a span is idle.
fn is_idle(span: &Span) -> bool
    ensures { result ≡ idle span.now }
{
    matches!(span, Span::Idle)
}

impl Spans {
    // All spans are idle.
    pub fn new() -> Spans
        ensures { spans_of result ≡ (λ _. Idle) }
    {
        Spans {
            table: [Span::Idle; 128],
        }
    }

    // The frame of a span, unless it is idle.
    pub fn frame(&self, span: u8) -> Option<u32>
        ensures { result ≡ frame_in (spans_of self.now span) }
    {
        match self.table.get(span as usize) {
            Some(Span::Home(frame) | Span::Alias(frame)) => Some(*frame),
            Some(Span::Idle) | None => None,
        }
    }

    // The lowest idle span.
    pub fn lowest_idle(&self) -> Option<u8>
        ensures found { result ≡ lowest (spans_of self.now) desktop.spans }
        ensures bound { (h : ℕ) → result ≡ Some h → h < 128 }
    {
        self.table.iter().position(is_idle).map(|span| span as u8)
    }

    // An idle span becomes the home of a frame.
    pub fn open(&mut self, span: u8, frame: u32)
        requires { span < 128 }
        ensures { spans_of self.new ≡ put (spans_of self.old) span (after (Event.Open frame) (spans_of self.old span)) }
    {
        apply(&mut self.table[span as usize], Event::Open(frame));
    }

    // How many spans are not idle.
    pub fn taken(&self) -> u32
        ensures { result ≡ tally desktop.spans (λ h. not (idle (spans_of self.now h))) }
    {
        self.table
            .iter()
            .map(|span| u32::from(!is_idle(span)))
            .sum()
    }

    // The source frame was laid onto the destination: its home and its aliases become aliases of the destination.
    pub fn merge(&mut self, source: u32, destination: u32)
        ensures { spans_of self.new ≡ spans_after (Event.Merge source destination) (spans_of self.old) }
    {
        self.apply_to_all(Event::Merge(source, destination));
    }

    // A frame holds no patch any more: its home and its aliases become idle.
    pub fn empty(&mut self, frame: u32)
        ensures { spans_of self.new ≡ spans_after (Event.Empty frame) (spans_of self.old) }
    {
        self.apply_to_all(Event::Empty(frame));
    }

    // Changes every span as an event asks that leaves idle spans idle.
    fn apply_to_all(&mut self, event: Event)
        requires { after event Idle ≡ Idle }
        ensures { spans_of self.new ≡ spans_after event (spans_of self.old) }
    {
        for span in self.table.iter_mut() {
            apply(span, event);
        }
    }
}
