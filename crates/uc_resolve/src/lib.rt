// The source that a program's tree stands for.
#![tactic(auto)]
