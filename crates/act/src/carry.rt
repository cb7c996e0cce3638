// A plan carried out in the lent table.
ghost use Rattle.std.specs.Prelude.{◌≡◌, true, ◌≤◌, length};
ghost use Rattle.rules.specs.Identity.{identity};
ghost use Rattle.rules.specs.TableBytes.{count_of, table_bytes, table_of, sound_bytes};
ghost use Rattle.laws.specs.Change.{on_records};
ghost use Rattle.plan.specs.Plan.{records_after, Possible};

use plan::Plan;

pub fn carry_out(t: &mut [u8], p: Plan, duid: &[u8], iaid: u32)
    requires { (sound_bytes t.old ≡ true) × Possible (count_of t.old) p × (length duid.now ≤ 130) }
    ensures { t.new ≡ table_bytes (on_records (λ rs. records_after (identity duid.now iaid) rs p) (table_of t.old)) }
{
    match p {
        Plan::Offer(_) => {}
        Plan::Bind { lease, end } => {
            leases::records::append(
                t,
                duid,
                iaid,
                lease.prefix,
                lease.length,
                lease.excluded,
                end,
            );
        }
        Plan::Extend {
            at,
            end,
            lease: _,
            back: _,
        } => {
            leases::records::extend_at(t, at, end);
        }
        Plan::Free(at) => {
            leases::records::remove_at(t, at);
        }
        Plan::Return => {}
        Plan::Say(_) => {}
        Plan::Silence => {}
    }
}
