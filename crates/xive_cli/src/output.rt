//! What a run tells: text is gathered here, and written to the sink in large pieces.

ghost use Rattle.std.specs.Prelude.{◌≡◌, ◌<◌, [], length};
ghost use Rattle.xv_io.specs.declared.writer.TheConstants.{PIECE};

use xv_io::{Sink, Writer};

/// A sink, and the text that is gathered for it. Between two calls there is room for one more text.
#[derive(Drop)]
pub struct Output<'a, K: Sink> {
    pub sink: &'a mut K,
    pub writer: Writer,
    ghost room: { length writer.gathered.items < PIECE },
}

impl<'a, K: Sink> Output<'a, K> {
    pub fn new(sink: &'a mut K) -> Output<'a, K>
        ensures same { result.sink.ghost_name ≡ sink.entry.ghost_name }
        ensures now { result.sink.now ≡ sink.old }
        ensures gathered { result.writer.gathered.items ≡ [] }
    {
        Output {
            sink,
            writer: Writer::new(),
        }
    }
}
