#![tactic(auto)]

// The argument that each step of a run is a step of what is left: the definitions stand in specs/. Each function here names laws that they satisfy, and does nothing.
ghost use Rattle.run_laws.specs.Laws.{ConstantStep, NameStep, UsingStep, PatternFits, BindStep, IfFits, IfStep};
ghost use Rattle.run_laws.specs.Laws.{DownPart, DownBind, DownIf, OnPart, NoneReady, LastReady};
ghost use Rattle.run_laws.specs.Laws.{TupleFits, TupleSmall, TupleStep, MeasFits, MeasStep, GateFits, GateStep, CallStep};
ghost use Rattle.run_laws.specs.Laws.{FrameFits, FrameBack, ValueFits, Entered, Waiting, Ended, Unended};
ghost use Rattle.run_laws.specs.Sample.{Sample};
ghost use Rattle.run_laws.specs.Laws.{Start, Along, Accepted, UsingRoom, MeasLive, GateLive, Onward, LeadsOn, OneReading, OneLeft, TableRead};

// A term with no part that runs before it: a constant, a name, a using.
pub fn leaves_stand()
    ensures constant { ConstantStep }
    ensures name { NameStep }
    ensures prepare { UsingStep }
{}

// A let, mut, set or if whose first part is a value: the value fits, and the step follows.
pub fn bindings_stand()
    ensures fits { PatternFits }
    ensures bind { BindStep }
    ensures test { IfFits }
    ensures branch { IfStep }
{}

// Going down to a part and on to the next leaves what is left as it is, until all parts are values.
pub fn parts_stand()
    ensures part { DownPart }
    ensures bind { DownBind }
    ensures test { DownIf }
    ensures next { OnPart }
    ensures none { NoneReady }
    ensures last { LastReady }
{}

// A construct whose parts are values: they fit, and the step follows.
pub fn forms_stand()
    ensures tuple_fits { TupleFits }
    ensures tuple_small { TupleSmall }
    ensures tuple { TupleStep }
    ensures meas_fits { MeasFits }
    ensures meas { MeasStep }
    ensures gate_fits { GateFits }
    ensures gate { GateStep }
    ensures call { CallStep }
{}

// A frame and a value for each node are room enough.
pub fn room_stands()
    ensures frame { FrameFits }
    ensures back { FrameBack }
    ensures value { ValueFits }
{}

// Only terms are entered and only nodes with parts wait; the run has ended exactly when what is left is finished.
pub fn ends_stand()
    ensures entered { Entered }
    ensures waiting { Waiting }
    ensures ended { Ended }
    ensures unended { Unended }
{}

// From the start on, what is left keeps its type, the machine accepts every order, and each step leads on.
pub fn runs_stand()
    ensures start { Start }
    ensures along { Along }
    ensures accepted { Accepted }
    ensures room { UsingRoom }
    ensures measured { MeasLive }
    ensures applied { GateLive }
    ensures onward { Onward }
    ensures leads { LeadsOn }
{}

// At most one term with a type is read off a state, and the run's table has the value of each entry that it names.
pub fn readings_stand()
    ensures once { OneReading }
    ensures left { OneLeft }
    ensures table { TableRead }
{}

// What is asked of a program can be met: a listing with an operation, a using, a let, a mut and a set does.
pub fn sample_stands()
    ensures { Sample }
{}
