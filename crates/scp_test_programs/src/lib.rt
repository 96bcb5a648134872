//! Tests of what the programs are made of, over devices in memory, for what no call at a prompt shows: of a node as a process
//! (`scp_live_process`, `scp_live_log`, `scp_batches`, `scp_live`), and of scripts (`scp_script`, `scp_line`, `scp_device`).
#![tactic(auto)]

#[cfg(test)]
mod line;
#[cfg(test)]
mod node;
#[cfg(test)]
mod script;
