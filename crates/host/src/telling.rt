ghost use Rattle.host.specs.Meanings.{Told};

use crate::host::GuardHost;
use event::event::Event;

/// Tells a host some events, in order.
pub fn tell_all<H: GuardHost>(host: &mut H, events: &[Event])
    ensures answers_as_after_the_events { Told (H.meaning host.old) events.now (H.meaning host.new) }
{
    for event in events {
        host.tell(*event);
    }
}
