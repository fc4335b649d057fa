//! Tests of the edges of the program, which are shelves, sinks and the gate, and of the counter of steps; and of the language of charts:
//! expressions, actions, and the paths of faults. And of compiled charts.
//!
//! They stand beside qp_base, qp_chart and qp_chart_compiled, over their public calls, so that none is proved a second time for them. The faults of whole
//! charts are in the tables of qp_verdicts.
#![tactic(auto)]

#[cfg(test)]
mod actions;
#[cfg(test)]
mod compiled_actions;
#[cfg(test)]
mod expressions;
#[cfg(test)]
mod guards;
#[cfg(test)]
mod paths;
#[cfg(test)]
mod samples;
#[cfg(test)]
mod shelves;
#[cfg(test)]
mod sinks;
#[cfg(test)]
mod steps;
#[cfg(test)]
mod tests;
#[cfg(test)]
mod transitions;
