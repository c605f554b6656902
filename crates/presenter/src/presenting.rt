//! Presentations to processors.

ghost use Rattle.std.specs.Prelude.{◌≡◌, ◌≢◌, ◌<◌, ◌==◌, ◌&&◌, ◌||◌, ℕ, length, slice_set};
ghost use Rattle.xv_model.specs.declared.outcomes.Phase.TheVariants.{On};
ghost use Rattle.xv_model.specs.declared.outcomes.Presented.TheVariants.{Found, Backlogged};
ghost use Rattle.xv_model.specs.processor.Pending.{is_kept};
ghost use Rattle.nvt_backlog.specs.Vps.{vp_in};
ghost use Rattle.thread_context.specs.Rings.{ring_in, pending_added};
ghost use Rattle.presenter.specs.Contexts.{AreFit, is_pending_for};
ghost use Rattle.presenter.specs.Moves.{backlogged, presented_by};

use nvt_backlog::{Vp, Vps};
use thread_context::Rings;
use xv_model::outcomes::{Phase, Presented};

/// Presents a priority, from 0 to 7, to a processor (QEMU's hw/intc/xive.c, xive_presenter_notify): to none where it
/// isn't connected; pending in the ring of its thread where it is on one; else in its backlog, where the END keeps
/// one; else lost.
pub fn present(vps: &mut Vps, rings: &mut Rings, vp: u32, priority: u8, backlog: bool) -> Presented
    requires processor { vp < length vps.old.vps }
    requires priority { priority < 8 }
    requires fit { AreFit vps.old.vps rings.old }
    ensures presented { result ≡ presented_by (vp_in vps.old.vps vp).valid (vp_in vps.old.vps vp).phase backlog }
    ensures ring { (t : ℕ) → result ≡ Found → (vp_in vps.old.vps vp).phase ≡ On t →
        rings.new ≡ slice_set rings.old t (pending_added priority (ring_in rings.old t)) }
    ensures rings { result ≢ Found → rings.new ≡ rings.old }
    ensures backlog { result ≡ Backlogged →
        vps.new.vps ≡ slice_set vps.old.vps vp (backlogged priority (vp_in vps.old.vps vp)) }
    ensures vps { result ≢ Backlogged → vps.new.vps ≡ vps.old.vps }
    ensures servers { vps.new.servers ≡ vps.old.servers }
    ensures processors { length vps.new.vps ≡ length vps.old.vps }
    ensures threads { length rings.new ≡ length rings.old }
    ensures fit { AreFit vps.new.vps rings.new }
    ensures pending { (w q : ℕ) → q < 8 → is_pending_for vps.new.vps rings.new w q ≡
        (is_pending_for vps.old.vps rings.old w q || (is_kept result && ((w == vp) && (q == priority)))) }
{
    let found = vps.get(vp);
    if !found.valid {
        return Presented::NoProcessor;
    }
    if let Phase::On { t } = found.phase {
        rings.add_pending(t, priority);
        return Presented::Found;
    }
    if !backlog {
        return Presented::Lost;
    }
    vps.set(
        vp,
        Vp {
            backlog: found.backlog | 1 << (7 - priority),
            ..found
        },
    );
    Presented::Backlogged
}
