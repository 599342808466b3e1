//! The configuration of a workload.

ghost use Rattle.std.specs.Prelude.{◌≡◌};
ghost use Rattle.outside.specs.Workload.{work_text};

const TEXT: &str = "\
    {\"templates\":[{\"name\":\"w\",\"items\":[{\"key\":\"k0\"},{\"key\":\"k1\"},{\"key\":\"k2\"},{\"key\":\"k3\"},\
    {\"key\":\"k4\"},{\"key\":\"k5\"},{\"key\":\"k6\"},{\"key\":\"k7\"},{\"key\":\"k8\"},{\"key\":\"k9\"}],\
    \"triggers\":[{\"name\":\"t0\",\"expression\":\"avg(/w/k0,#5)>80\",\
    \"recovery\":\"recovery_expression\",\"recovery_expression\":\"avg(/w/k0,#5)<60\",\"severity\":0},\
    {\"name\":\"t1\",\"expression\":\"avg(/w/k1,#5)>80\",\
    \"recovery\":\"recovery_expression\",\"recovery_expression\":\"avg(/w/k1,#5)<60\",\"severity\":1,\"depends\":[\
    {\"host\":\"\",\"trigger\":\"t0\"}]},{\"name\":\"t2\",\"expression\":\"avg(/w/k2,#5)>80\",\
    \"recovery\":\"recovery_expression\",\"recovery_expression\":\"avg(/w/k2,#5)<60\",\"severity\":2},\
    {\"name\":\"t3\",\"expression\":\"avg(/w/k3,#5)>80\",\
    \"recovery\":\"recovery_expression\",\"recovery_expression\":\"avg(/w/k3,#5)<60\",\"severity\":3},\
    {\"name\":\"t4\",\"expression\":\"avg(/w/k4,#5)>80\",\
    \"recovery\":\"recovery_expression\",\"recovery_expression\":\"avg(/w/k4,#5)<60\",\"severity\":4},\
    {\"name\":\"t5\",\"expression\":\"avg(/w/k5,#5)>80\",\
    \"recovery\":\"recovery_expression\",\"recovery_expression\":\"avg(/w/k5,#5)<60\",\"severity\":5},\
    {\"name\":\"t6\",\"expression\":\"avg(/w/k6,#5)>80\",\
    \"recovery\":\"recovery_expression\",\"recovery_expression\":\"avg(/w/k6,#5)<60\",\"severity\":0},\
    {\"name\":\"t7\",\"expression\":\"avg(/w/k7,#5)>80\",\
    \"recovery\":\"recovery_expression\",\"recovery_expression\":\"avg(/w/k7,#5)<60\",\"severity\":1},\
    {\"name\":\"t8\",\"expression\":\"avg(/w/k8,#5)>80\",\
    \"recovery\":\"recovery_expression\",\"recovery_expression\":\"avg(/w/k8,#5)<60\",\"severity\":2},\
    {\"name\":\"t9\",\"expression\":\"avg(/w/k9,#5)>80\",\
    \"recovery\":\"recovery_expression\",\"recovery_expression\":\"avg(/w/k9,#5)<60\",\"severity\":3}]}],\"hosts\":[\
    {\"name\":\"h0\",\"groups\":[\"g\"],\"templates\":[\"w\"]},\
    {\"name\":\"h1\",\"groups\":[\"g\"],\"templates\":[\"w\"]},\
    {\"name\":\"h2\",\"groups\":[\"g\"],\"templates\":[\"w\"]},\
    {\"name\":\"h3\",\"groups\":[\"g\"],\"templates\":[\"w\"]},\
    {\"name\":\"h4\",\"groups\":[\"g\"],\"templates\":[\"w\"]},\
    {\"name\":\"h5\",\"groups\":[\"g\"],\"templates\":[\"w\"]},\
    {\"name\":\"h6\",\"groups\":[\"g\"],\"templates\":[\"w\"]},\
    {\"name\":\"h7\",\"groups\":[\"g\"],\"templates\":[\"w\"]},\
    {\"name\":\"h8\",\"groups\":[\"g\"],\"templates\":[\"w\"]},\
    {\"name\":\"h9\",\"groups\":[\"g\"],\"templates\":[\"w\"]},\
    {\"name\":\"h10\",\"groups\":[\"g\"],\"templates\":[\"w\"]},\
    {\"name\":\"h11\",\"groups\":[\"g\"],\"templates\":[\"w\"]},\
    {\"name\":\"h12\",\"groups\":[\"g\"],\"templates\":[\"w\"]},\
    {\"name\":\"h13\",\"groups\":[\"g\"],\"templates\":[\"w\"]},\
    {\"name\":\"h14\",\"groups\":[\"g\"],\"templates\":[\"w\"]},\
    {\"name\":\"h15\",\"groups\":[\"g\"],\"templates\":[\"w\"]},\
    {\"name\":\"h16\",\"groups\":[\"g\"],\"templates\":[\"w\"]},\
    {\"name\":\"h17\",\"groups\":[\"g\"],\"templates\":[\"w\"]},\
    {\"name\":\"h18\",\"groups\":[\"g\"],\"templates\":[\"w\"]},\
    {\"name\":\"h19\",\"groups\":[\"g\"],\"templates\":[\"w\"]},\
    {\"name\":\"h20\",\"groups\":[\"g\"],\"templates\":[\"w\"]},\
    {\"name\":\"h21\",\"groups\":[\"g\"],\"templates\":[\"w\"]},\
    {\"name\":\"h22\",\"groups\":[\"g\"],\"templates\":[\"w\"]},\
    {\"name\":\"h23\",\"groups\":[\"g\"],\"templates\":[\"w\"]},\
    {\"name\":\"h24\",\"groups\":[\"g\"],\"templates\":[\"w\"]},\
    {\"name\":\"h25\",\"groups\":[\"g\"],\"templates\":[\"w\"]},\
    {\"name\":\"h26\",\"groups\":[\"g\"],\"templates\":[\"w\"]},\
    {\"name\":\"h27\",\"groups\":[\"g\"],\"templates\":[\"w\"]},\
    {\"name\":\"h28\",\"groups\":[\"g\"],\"templates\":[\"w\"]},\
    {\"name\":\"h29\",\"groups\":[\"g\"],\"templates\":[\"w\"]},\
    {\"name\":\"h30\",\"groups\":[\"g\"],\"templates\":[\"w\"]},\
    {\"name\":\"h31\",\"groups\":[\"g\"],\"templates\":[\"w\"]},\
    {\"name\":\"h32\",\"groups\":[\"g\"],\"templates\":[\"w\"]},\
    {\"name\":\"h33\",\"groups\":[\"g\"],\"templates\":[\"w\"]},\
    {\"name\":\"h34\",\"groups\":[\"g\"],\"templates\":[\"w\"]},\
    {\"name\":\"h35\",\"groups\":[\"g\"],\"templates\":[\"w\"]},\
    {\"name\":\"h36\",\"groups\":[\"g\"],\"templates\":[\"w\"]},\
    {\"name\":\"h37\",\"groups\":[\"g\"],\"templates\":[\"w\"]},\
    {\"name\":\"h38\",\"groups\":[\"g\"],\"templates\":[\"w\"]},\
    {\"name\":\"h39\",\"groups\":[\"g\"],\"templates\":[\"w\"]},\
    {\"name\":\"h40\",\"groups\":[\"g\"],\"templates\":[\"w\"]},\
    {\"name\":\"h41\",\"groups\":[\"g\"],\"templates\":[\"w\"]},\
    {\"name\":\"h42\",\"groups\":[\"g\"],\"templates\":[\"w\"]},\
    {\"name\":\"h43\",\"groups\":[\"g\"],\"templates\":[\"w\"]},\
    {\"name\":\"h44\",\"groups\":[\"g\"],\"templates\":[\"w\"]},\
    {\"name\":\"h45\",\"groups\":[\"g\"],\"templates\":[\"w\"]},\
    {\"name\":\"h46\",\"groups\":[\"g\"],\"templates\":[\"w\"]},\
    {\"name\":\"h47\",\"groups\":[\"g\"],\"templates\":[\"w\"]},\
    {\"name\":\"h48\",\"groups\":[\"g\"],\"templates\":[\"w\"]},\
    {\"name\":\"h49\",\"groups\":[\"g\"],\"templates\":[\"w\"]}],\"actions\":[{\"name\":\"act\",\"conditions\":[\
    {\"kind\":\"severity\",\"op\":\"ge\",\"value\":4}],\"step_duration\":\"60s\",\"operations\":[\
    {\"from\":1,\"to\":0,\"recipients\":[\"ops\"],\"subject\":\"{EVENT.NAME}\",\"body\":\"\"}],\"recovery\":[\
    {\"recipients\":[\"ops\"],\"subject\":\"{EVENT.NAME}\",\"body\":\"\"}]}]}";

/// The configuration as its document has it, in JSON.
pub(crate) fn configuration() -> &'static str
    ensures { result.now ≡ work_text }
{
    TEXT
}
