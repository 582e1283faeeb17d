// The mailboxes: a Send and a Receive pair with the oldest step that is pending on the other side, or join their own side's end. A call takes the
// same time however many steps are pending.
#![tactic(auto)]

ghost use Rattle.std.specs.Prelude.{◌≡◌, ◌+◌, ◌*◌, ◌^◌, ◌<◌, length, unwrap_or};
ghost use Rattle.model.specs.Mail.{carried as carried_by};
ghost use Rattle.names.specs.InByte.{name_of};
ghost use Rattle.state.specs.State.{comm_of, port_number};
ghost use Rattle.state.specs.Rooms.{head_in, tail_in};
ghost use Rattle.mail.specs.Parts.{sends_at, receives_at, port_at, paired, oldest_in, head_on, Posted, Joined};

use state::Mail;

// A Send of a value by the step `me` to mailbox m.
pub fn send(mail: &mut Mail, me: usize, m: usize, value: u32)
    requires { (me < 256) × (m < 8) × (tail_in mail.old.ends (2 * m) < 256) }
    ensures { Posted (sends_at m) (name_of me) value mail.old mail.new }
{
    post(mail, me, m, Some(value));
}

// A Receive by the step `me` from mailbox m.
pub fn receive(mail: &mut Mail, me: usize, m: usize)
    requires { (me < 256) × (m < 8) × (tail_in mail.old.ends (2 * m + 1) < 256) }
    ensures { Posted (receives_at m) (name_of me) 0 mail.old mail.new }
{
    post(mail, me, m, None);
}

// A Send of the value `sent`, or else a Receive: it pairs with the oldest step that is pending on the other side, or joins its own side's end.
fn post(mail: &mut Mail, me: usize, m: usize, sent: Option<u32>)
    requires { (me < 256) × (m < 8) × (tail_in mail.old.ends (port_number (port_at m sent)) < 256) }
    ensures { Posted (port_at m sent) (name_of me) (unwrap_or sent 0) mail.old mail.new }
{
    let (own, theirs) = match sent {
        Some(_) => (2 * m, 2 * m + 1),
        None => (2 * m + 1, 2 * m),
    };
    if mail.ends[2 * theirs] < mail.ends[2 * theirs + 1] {
        let other = take_oldest(&mail.log, &mut mail.ends, theirs);
        let value = match sent {
            Some(value) => u64::from(value),
            None => carried(mail.comms[other]),
        };
        settle(&mut mail.comms, me, other, value);
    } else {
        join(mail, me, own, u64::from(sent.unwrap_or(0)));
    }
}

// A step joins the end of port n's queue.
fn join(mail: &mut Mail, me: usize, n: usize, value: u64)
    requires { (me < 256) × (n < 16) × (value < 2 ^ 32) × (tail_in mail.old.ends n < 256) }
    ensures { Joined me n value mail.old mail.new }
{
    let at = mail.ends[2 * n + 1];
    mail.comms[me] = 1 + 1024 * value;
    mail.log[256 * n + at] = me as u8;
    mail.ends[2 * n + 1] += 1;
}

// The oldest step of port n's queue, which leaves it.
fn take_oldest(log: &[u8; 4096], ends: &mut [usize; 32], n: usize) -> usize
    requires { (length log.now ≡ 4096) × (length ends.old ≡ 32) × (n < 16) × (head_in ends.old n < 256) }
    ensures { (result ≡ oldest_in log.now ends.old n) × (result < 256) × (ends.new ≡ head_on ends.old n) }
{
    let at = ends[2 * n];
    ends[2 * n] += 1;
    usize::from(log[256 * n + at])
}

// A step and another become a pair, which carries a value.
fn settle(comms: &mut [u64; 256], me: usize, other: usize, value: u64)
    requires { (length comms.old ≡ 256) × (me < 256) × (other < 256) × (value < 2 ^ 32) }
    ensures { comms.new ≡ paired comms.old me other value }
{
    comms[other] = 2 + 4 * (me as u64) + 1024 * value;
    comms[me] = 2 + 4 * (other as u64) + 1024 * value;
}

// The value that a communication carries, 0 where it is unposted.
fn carried(c: u64) -> u64
    requires { c < 2 ^ 42 }
    ensures { (result ≡ carried_by (comm_of c)) × (result < 2 ^ 32) }
{
    if c % 4 == 0 { 0 } else { c / 1024 }
}
