//! The sessions of the open connections, found by their numbers.
ghost use Rattle.std.specs.Prelude.{◌≡◌, filter, find, map, not};
ghost use Rattle.std.specs.Option.{option_copied};
ghost use Rattle.mix_audience.specs.Sides.{identified, is_member};

use crate::member::Member;
use mix_base::ConnId;

/// The session of the connection, if it is there.
pub fn member_at(members: &[Member], conn: ConnId) -> Option<&Member>
    ensures value { option_copied result ≡ find (is_member conn) members.now }
{
    members.iter().find(|member| member.is(conn))
}

/// The connection has this mask.
pub fn identify(members: &mut Vec<Member>, conn: ConnId, mask: u32)
    ensures state { members.new.items ≡ map (identified conn mask) members.old.items }
{
    identify_each(members.as_mut_slice(), conn, mask);
}

fn identify_each(members: &mut [Member], conn: ConnId, mask: u32)
    ensures state { members.new ≡ map (identified conn mask) members.old }
{
    for member in members.iter_mut() {
        member.identify(conn, mask);
    }
}

/// Takes the connection out.
pub fn remove(members: &mut Vec<Member>, conn: ConnId)
    ensures state { members.new.items ≡ filter (λ m. not (is_member conn m)) members.old.items }
{
    members.retain(|member| is_other(conn, member));
}

fn is_other(conn: ConnId, member: &Member) -> bool
    ensures value { result ≡ not (is_member conn member.now) }
{
    !member.is(conn)
}
