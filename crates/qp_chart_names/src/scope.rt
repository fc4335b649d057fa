//! The names that a chart's keys and texts may use, with their numbers.
ghost use Rattle.std.specs.Prelude.{◌≡◌, ◌+◌, ◌<◌, ◌≤◌, ◌∷◌, ◌++◌, [], length, Some, IfOk, IfErr};
ghost use Rattle.std.specs.Option.{option_copied};
ghost use Rattle.qp_chart_names.specs.declared.place.Part.TheVariants.{Key};
ghost use Rattle.qp_chart_names.specs.TablesOf.{IsTablesOf};
ghost use Rattle.qp_chart_text.specs.Terms.{term_of};
ghost use Rattle.qp_chart_names.specs.RawNumbers.{signal_number, signal_named, object_named, state_number, timer_by_name, variable_number};
ghost use Rattle.qp_chart_names.specs.ActionFaults.{term_known};
ghost use Rattle.qp_chart_names.specs.Faults.{IsChartFault};
ghost use Rattle.qp_chart_names.specs.NameFaults.{undeclared, undeclared_key};
ghost use Rattle.qp_chart_names.specs.RawNumbers.{Refers};

use crate::fault::ChartFault;
use crate::place::Part;
use crate::raw::{Names, ObjName, RawChart, SigName};
use crate::tables::Tables;
use crate::{code, known};
use qp_chart_text::{Expr, Name};

/// A chart, what it may name outside itself, and tables of both.
#[derive(Drop)]
pub struct Scope<'a> {
    pub names: &'a Names,
    pub chart: &'a RawChart,
    pub tables: Tables,
    ghost few_states: { length chart.now.state ≤ 64 },
    ghost few_timers: { length chart.now.timer ≤ 8 },
    ghost few_variables: { length chart.now.vars ≤ 16 },
    ghost tables_made: { IsTablesOf names.now chart.now tables },
}

impl Scope<'_> {
    /// The number of the signal of this name.
    pub fn signal_number(&self, name: &Name) -> Option<u16>
        ensures { result ≡ signal_number self.now.names.now name.now }
    {
        self.tables.signals.get(name)
    }

    /// The signal of this name.
    pub fn signal_named(&self, name: &Name) -> Option<&SigName>
        ensures { option_copied result ≡ signal_named self.now.names.now name.now }
    {
        match self.tables.signals.get(name) {
            Some(number) => self.names.signals.as_slice().get(number as usize - 4),
            None => None,
        }
    }

    /// The object of this name.
    pub fn object_named(&self, name: &Name) -> Option<&ObjName>
        ensures { option_copied result ≡ object_named self.now.names.now name.now }
    {
        match self.tables.objects.get(name) {
            Some(place) => self.names.objects.as_slice().get(place as usize),
            None => None,
        }
    }

    /// The number of the time event of this name.
    pub fn timer_number(&self, name: &Name) -> Option<u8>
        ensures { result ≡ timer_by_name self.now.chart.now name.now }
    {
        match self.tables.timers.get(name) {
            Some(number) => Some(number as u8),
            None => None,
        }
    }

    /// The number of the variable of this name.
    pub fn variable_number(&self, name: &Name) -> Option<u8>
        ensures { result ≡ variable_number self.now.chart.now name.now }
    {
        match self.tables.variables.get(name) {
            Some(number) => Some(number as u8),
            None => None,
        }
    }

    /// The number of the state of this name.
    pub fn state_number(&self, name: &Name) -> Option<u8>
        ensures { result ≡ state_number self.now.chart.now name.now }
    {
        match self.tables.states.get(name) {
            Some(number) => Some(number as u8),
            None => None,
        }
    }

    /// Whether each variable of the expression is declared.
    pub fn knows(&self, e: &Expr) -> bool
        ensures { result ≡ term_known self.now.chart.now (term_of e.now) }
    {
        known::is_known(e, self.tables.vars.as_slice())
    }

    /// The number of the signal that the key at this place names.
    pub fn signal(&self, name: &Name, at: &[Part], key: u8) -> Result<u16, ChartFault>
        requires { length at.now < 8 }
        ensures ok { IfOk result (λ n. signal_number self.now.names.now name.now ≡ Some n) }
        ensures fault { IfErr result (IsChartFault (undeclared (signal_number self.now.names.now name.now) (at.now ++ Key key ∷ []))) }
    {
        match self.signal_number(name) {
            Some(number) => Ok(number),
            None => Err(ChartFault::below(code::NO_SUCH_NAME, at, &[Part::Key(key)])),
        }
    }

    /// The number of the state that the key at this place names.
    pub fn state(&self, name: &Name, at: &[Part], key: u8) -> Result<u8, ChartFault>
        requires { length at.now < 8 }
        ensures ok { IfOk result (λ n. state_number self.now.chart.now name.now ≡ Some n) }
        ensures fault { IfErr result (IsChartFault (undeclared (state_number self.now.chart.now name.now) (at.now ++ Key key ∷ []))) }
    {
        match self.state_number(name) {
            Some(number) => Ok(number),
            None => Err(ChartFault::below(code::NO_SUCH_NAME, at, &[Part::Key(key)])),
        }
    }

    /// The number of the state that the optional key at this place names.
    pub fn optional_state(
        &self,
        name: &Option<Name>,
        at: &[Part],
        key: u8,
    ) -> Result<Option<u8>, ChartFault>
        requires { length at.now < 8 }
        ensures ok { IfOk result (λ to. Refers (state_number self.now.chart.now) name.now to) }
        ensures fault { IfErr result (IsChartFault (undeclared_key (state_number self.now.chart.now) name.now (at.now ++ Key key ∷ []))) }
    {
        match name {
            Some(name) => Ok(Some(self.state(name, at, key)?)),
            None => Ok(None),
        }
    }
}
