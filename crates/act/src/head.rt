// The answer's type, number and status.
ghost use Rattle.std.specs.Prelude.{◌≡◌, ◌≤◌, length};
ghost use Rattle.rules.specs.Message.{read};
ghost use Rattle.rules.specs.Identity.{kind_of, answer_type, is_release};
ghost use Rattle.act.specs.Head.{HeadFor};

use print::message::Head;
use rules::Kind;

fn answer_type(k: Kind) -> u8
    ensures { result ≡ answer_type k }
{
    match k {
        Kind::Solicit => 2,
        Kind::Request => 7,
        Kind::Renew => 7,
        Kind::Rebind => 7,
        Kind::Release => 7,
    }
}

fn is_release(k: Kind) -> bool
    ensures { result ≡ is_release k }
{
    match k {
        Kind::Solicit => false,
        Kind::Request => false,
        Kind::Renew => false,
        Kind::Rebind => false,
        Kind::Release => true,
    }
}

// For a message of that kind; `pd` says whether an IA_PD stands in it.
pub fn head_for(msg: &[u8], k: Kind, pd: bool) -> Head
    requires { (k ≡ kind_of (read msg.now).kind) × (4 ≤ length msg.now) }
    ensures { HeadFor (read msg.now) pd result }
{
    let kind = answer_type(k);
    let number = cells::get(msg, 1, 3) as u32;
    let says = is_release(k);
    Head {
        kind,
        number,
        server: true,
        asks: false,
        says,
        status: 0,
        pd,
    }
}
