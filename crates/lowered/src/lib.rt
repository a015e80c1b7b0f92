// The theorem that joins lowering, check, walk and evaluator. There is no code here.
#![tactic(auto)]
