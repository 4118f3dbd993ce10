//! Reaching the authorities of a policy.
ghost use Rattle.session_core.specs.Reaching.{HaveReached};

use authority_ask::Panel;
use nx_io::Reach;
use policy_history::Head;
use std::net::{Net, TcpListener, TcpStream};
use std::rt::Clock;

/// Makes each authority of the head the one that is asked at its port, in the order of the policy text.
///
/// At `Ready` each was reached. `Failed` comes where one could not be reached, which was the last that was tried. No other call is
/// made of the panel.
pub fn reach_all<P: Panel, R: Net<Listener = TcpListener, Stream = TcpStream> + Clock>(
    rt: &R,
    head: &Head,
    panel: &mut P,
) -> Reach
    ensures reached { HaveReached result head.now.authorities (P.history panel.old) (P.history panel.new) }
{
    for place in 0..head.authorities.count() {
        let Some(authority) = head.authorities.get(place) else {
            // The place is below the count.
            unreachable!()
        };
        match panel.reach(rt, authority.port, authority.address.as_slice()) {
            Reach::Ready => {}
            Reach::Failed => return Reach::Failed,
        }
    }
    Reach::Ready
}
