//! A law of the definitions. It is the contract of a function that does nothing.
ghost use Rattle.scp_trace_text.specs.Watching.{TracedIsWhatHappened};

use scp_facts::a_step_is_told_as_it_happened;

/// If a watch hasn't failed, what it wrote about the steps of a node is exactly what happened in them, in order.
pub fn what_is_traced_is_what_happened()
    ensures { TracedIsWhatHappened }
{
    a_step_is_told_as_it_happened();
}
